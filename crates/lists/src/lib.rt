// What several crates say of lists and of flags that are kept as words, in specs/, the laws that their proofs use, in proofs/, and the store by which
// rows and a state's numbers go into a lent slice.

#![tactic(auto)]

ghost use Rattle.std.specs.Prelude.{◌≡◌, ◌+◌, ◌≤◌, length};
ghost use Rattle.std.proofs.lemmas.List.Edits.{sets};

// The numbers from a place on; all else stays.
pub fn put_numbers<T: Copy>(to: &mut [T], at: usize, numbers: &[T])
    requires { at + length numbers.now ≤ length to.old }
    ensures { to.new ≡ sets to.old at numbers.now }
{
    to[at..at + numbers.len()].copy_from_slice(numbers);
}
