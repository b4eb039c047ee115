//! A dependency sheet: the checks of its words and names, and its edges resolved to items.
#![tactic(auto)]

mod bytes;
mod edges;
mod names;
mod shape;
mod words;

ghost use Rattle.sheets.specs.inner.Resolving.{Resolved};

use answers::{Refusal, Verdict};
pub use bytes::byte_from;
use names::Index;
use shape::Sheet;

// The checks up to 29, and before 29 whether the two tables have room. Each edge's item and target are written to them, up to the first edge that
// names no item. Here and above, a sheet and its names stay two parameters, as C lends them; and the tables two, since the clerk scans targets as
// bytes, sixteen at a time.
pub fn resolve(sheet: &[u32], names: &[u8], owners: &mut [u8], targets: &mut [u8]) -> Verdict
    ensures { Resolved sheet.now names.now owners.old targets.old result owners.new targets.new }
{
    let sheet = Sheet::read(sheet, names)?;
    // an array, of which the first items are used, for there is no heap
    let mut signatures = [0u8; 256];
    names::sign(sheet, &mut signatures)?;
    let listed = sheet.listed();
    if owners.len() < listed || targets.len() < listed {
        return Err(Refusal::NoRoom(listed as u32));
    }
    let index = Index {
        sheet,
        signatures: &signatures[..sheet.items()],
    };
    edges::resolve_edges(index, owners, targets)
}
