// Numbers put into arrays.
ghost use Rattle.std.specs.Prelude.{◌≡◌, ◌≤◌, length, take};
ghost use Rattle.std.proofs.lemmas.List.Edits.{sets};
ghost use Rattle.vad_state.specs.Arrays.{filled_of};

use lists::put_numbers;

// The numbers at the slice's start; what stands past them stays.
pub fn put(to: &mut [f32], numbers: &[f32])
    requires { length numbers.now ≤ length to.old }
    ensures { to.new ≡ sets to.old 0 numbers.now }
{
    put_numbers(to, 0, numbers);
}

// Only the first n of the numbers: a struct's array is lent whole, since the borrow checker covers no part of it.
pub fn put_first(to: &mut [f32], numbers: &[f32], n: usize)
    requires { (n ≤ length numbers.now) × (n ≤ length to.old) }
    ensures { to.new ≡ sets to.old 0 (take n numbers.now) }
{
    put(to, &numbers[..n]);
}

// Zeros from a place on.
pub fn clear(to: &mut [f32], from: usize)
    requires { from ≤ length to.old }
    ensures { to.new ≡ filled_of (length to.old) (take from to.old) }
{
    to[from..].fill(0.0);
}

// The numbers, and zeros past them.
pub fn filled<const N: usize>(numbers: &[f32]) -> [f32; N]
    requires { length numbers.now ≤ N }
    ensures { result ≡ filled_of N numbers.now }
{
    let mut array = [0.0; N];
    put(&mut array, numbers);
    array
}

// The same in place, so that no array is copied.
pub fn fill_slice(to: &mut [f32], numbers: &[f32])
    requires { length numbers.now ≤ length to.old }
    ensures { to.new ≡ filled_of (length to.old) numbers.now }
{
    put(to, numbers);
    clear(to, numbers.len());
}

// A struct's field is lent as the array that it is, and goes on as a slice.
pub fn fill<const N: usize>(to: &mut [f32; N], numbers: &[f32])
    requires { length numbers.now ≤ N }
    ensures { to.new ≡ filled_of N numbers.now }
{
    fill_slice(to, numbers);
}

// The first n numbers stay.
pub fn clear_past<const N: usize>(to: &mut [f32; N], n: usize)
    requires { n ≤ N }
    ensures { to.new ≡ filled_of N (take n to.old) }
{
    clear(to, n);
}
