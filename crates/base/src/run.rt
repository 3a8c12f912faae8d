ghost use Rattle.base.specs.Runs.{Appended};

use super::fault::Fault;

// Writes `more` into `items` behind the first `count` of them, and answers how many are in use then; or refuses it
// whole.
pub fn append<T: Copy>(items: &mut [T], count: usize, more: &[T]) -> Result<usize, Fault>
    ensures { Appended items.old count more.now items.new result }
{
    // By hand: what `get_mut` lends of a slice is not tied to the whole in the library's contract.
    if count > items.len() || more.len() > items.len() - count {
        return Err(Fault::Overfull);
    }
    let end = count + more.len();
    items[count..end].copy_from_slice(more);
    Ok(end)
}
