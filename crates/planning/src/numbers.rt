// Blocks of five numbers stored into lent slices.
ghost use Rattle.std.specs.Prelude.{◌≡◌};
ghost use Rattle.reader.specs.Store.{put};

// Stores the n-th block of five, where there is room for a whole one.
pub(crate) fn put_five(numbers: &mut [u64], n: usize, five: [u64; 5])
    ensures { numbers.new ≡ put 5 numbers.old n five }
{
    if n < numbers.len() / 5 {
        let at = 5 * n;
        numbers[at..at + 5].copy_from_slice(&five);
    }
}
