// Loading a file. The contract of `load` names `Loaded`, so it cannot stand in the file of that type.
ghost use Rattle.std.specs.Prelude.{◌≡◌, ℕ, List, Ok, slice_index};
ghost use Rattle.store.specs.declared.stores.Counts.{Counts};
ghost use Rattle.store.specs.Stores.{rooms_of};
ghost use Rattle.file.specs.Calls.{Loads};
ghost use Rattle.file.specs.Steps.{Checked, Fitting};

use super::{Loaded, Refused};
use crate::header::MAX_NODES;
use crate::records::Records;
use crate::sections::Sections;
use base::Fault;
use store::{Counts, Stores};

// Cuts the file into its sections, if it has them and stores with these rooms hold them.
fn fitting(file: &[u8], rooms: Counts) -> Result<Sections<'_>, Fault>
    ensures { Fitting file.now rooms result }
{
    let sections = Sections::cut(file)?;
    if !sections.fits(rooms) {
        return Err(Fault::StoresTooSmall);
    }
    Ok(sections)
}

// Asks everything else of the file that is asked before it is loaded. The table of zeros is for the parents.
fn check<'a, 't>(
    sections: Sections<'a>,
    table: &'t mut [u8; MAX_NODES],
) -> Result<Records<'a, 't>, Fault>
    requires { (y : ℕ) → slice_index table.old y ≡ 0 }
    ensures { (file : List ℕ) (rooms : Counts) → Fitting file rooms (Ok sections.entry) → Checked file rooms result }
{
    let records = Records::check(sections, table)?;
    records.check_links()?;
    Ok(records)
}

// Loads what the file holds into stores that have room for it, or refuses it, and leaves them as they were.
fn fill<'a>(sections: Sections<'_>, mut stores: Stores<'a>) -> Result<Loaded<'a>, Refused<'a>>
    requires { (file : List ℕ) × Fitting file (rooms_of stores) (Ok sections) }
    ensures { (file : List ℕ) → Fitting file (rooms_of stores.entry) (Ok sections.entry) → Loads file stores.entry result }
{
    let mut table = [0; MAX_NODES];
    match check(sections, &mut table) {
        Ok(records) => {
            records.copy_to(&mut stores);
            Ok(Loaded {
                stores,
                root: records.sections.root,
            })
        }
        Err(fault) => Err(Refused { fault, stores }),
    }
}

// Loads a file into the stores, in the place of what they held, or refuses it, and leaves them as they were. The table
// of the parents is made only where the header and the rooms are in order.
pub fn load<'a>(file: &[u8], stores: Stores<'a>) -> Result<Loaded<'a>, Refused<'a>>
    ensures { Loads file.now stores.entry result }
{
    let sections = match fitting(file, stores.rooms()) {
        Ok(sections) => sections,
        Err(fault) => return Err(Refused { fault, stores }),
    };
    fill(sections, stores)
}
