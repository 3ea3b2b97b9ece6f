// Putting a number in at a place of a table of numbers.
ghost use Rattle.std.specs.Prelude.{◌≡◌, ◌-◌, ◌≤◌, ◌<◌, length, take};
ghost use Rattle.std.specs.List.{insert};
ghost use Rattle.arrayvec.specs.ArrayVec.{array_vec_len};
ghost use Rattle.sorted.specs.Sorted.{raised};

use arrayvec::ArrayVec;

// How many numbers are moved at a time. A move of a length that is not known in advance would need `memmove` of the C library.
const BLOCK: usize = 32;

// Moves whole blocks of the numbers from place p on one place up, over the last one. Gives the place of the gap: those from p up to there are
// still to be moved.
fn raise_blocks(numbers: &mut [u32], p: usize) -> usize
    requires { p < length numbers.old }
    ensures gap { (p ≤ result) × (result < length numbers.old) }
    ensures raised { numbers.new ≡ raised numbers.old (length numbers.old - 1) result }
{
    let mut gap = numbers.len() - 1;
    while BLOCK <= gap - p {
        gap -= BLOCK;
        numbers.copy_within(gap..gap + BLOCK, gap + 1);
    }
    gap
}

// Moves the numbers from place p up to the gap one place up, into the gap.
fn raise_each(numbers: &mut [u32], p: usize, gap: usize)
    requires { (p ≤ gap) × (gap < length numbers.old) }
    ensures { numbers.new ≡ raised numbers.old gap p }
{
    let mut i = gap;
    while p < i {
        i -= 1;
        numbers[i + 1] = numbers[i];
    }
}

// Puts a number in at place p; those from there on go one place up, over the last one.
fn insert_over_last(numbers: &mut [u32], p: usize, v: u32)
    requires { p < length numbers.old }
    ensures { numbers.new ≡ insert (take (length numbers.old - 1) numbers.old) p v }
{
    let gap = raise_blocks(numbers, p);
    raise_each(numbers, p, gap);
    numbers[p] = v;
}

// Puts a number in at place p; those from there on go one place up.
pub(crate) fn insert_at<const N: usize>(numbers: &mut ArrayVec<u32, N>, p: usize, v: u32)
    requires { (p ≤ array_vec_len numbers.old) × (array_vec_len numbers.old < N) }
    ensures { numbers.new.items ≡ insert numbers.old.items p v }
{
    numbers.push(v);
    insert_over_last(numbers.as_mut_slice(), p, v);
}
