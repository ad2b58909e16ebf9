//! Counts and flags by number.

ghost use Rattle.std.specs.Prelude.{◌≡◌, OnErr, OnOk};
ghost use Rattle.ccr_ledger.specs.Books.{flag, less, more, number, raised};

use ccr_base::OutOfMemory;

/// The count at the index; 0 past the last.
pub(crate) fn number(numbers: &[u32], index: usize) -> u32
    ensures { result ≡ number numbers.now index }
{
    match numbers.get(index) {
        Some(count) => *count,
        None => 0,
    }
}

/// One more at the index. A count that no longer fits counts as out of memory.
pub(crate) fn add_one(numbers: &mut Vec<u32>, index: usize) -> Result<(), OutOfMemory>
    ensures ok { OnOk result (numbers.new.items ≡ more index numbers.old.items) }
    ensures err { OnErr result (numbers.new.items ≡ numbers.old.items) }
{
    if index < numbers.len() {
        let Some(count) = numbers[index].checked_add(1) else {
            return Err(OutOfMemory);
        };
        numbers[index] = count;
    }
    Ok(())
}

/// One less at the index.
pub(crate) fn take_one(numbers: &mut Vec<u32>, index: usize)
    ensures { numbers.new.items ≡ less index numbers.old.items }
{
    if index < numbers.len() {
        numbers[index] = numbers[index].saturating_sub(1);
    }
}

/// Whether the flag at the index is up; none is past the last.
pub(crate) fn flag(flags: &[bool], index: usize) -> bool
    ensures { result ≡ flag flags.now index }
{
    match flags.get(index) {
        Some(up) => *up,
        None => false,
    }
}

/// The flag at the index goes up.
pub(crate) fn raise(flags: &mut Vec<bool>, index: usize)
    ensures { flags.new.items ≡ raised index flags.old.items }
{
    if index < flags.len() {
        flags[index] = true;
    }
}
