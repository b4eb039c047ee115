//! Edges, resolved: of each its item and its target.
ghost use Rattle.std.specs.Prelude.{◌≡◌, ◌≤◌, ◌<◌, length};
ghost use Rattle.sheets.specs.Words as W;
ghost use Rattle.sheets.specs.inner.Asked.{Filled};

use crate::names::Index;
use answers::{Refusal, Verdict};

// The slot of a place in the names: places at equal distances fall in slots of their own.
fn slot(at: usize) -> usize
    requires { at ≤ 65536 }
    ensures { result < 512 }
{
    at * 40503 % 65536 / 128
}

// 29, by the first edge that names no item. The item and the target of each edge before it are written.
pub(crate) fn resolve_edges<'a>(index: Index<'a>, owners: &mut [u8], targets: &mut [u8]) -> Verdict
    requires signed { length index.signatures.now ≡ W.items index.sheet.words.all.now }
    requires room { (W.listed index.sheet.words.all.now ≤ length owners.old) × (W.listed index.sheet.words.all.now ≤ length targets.old) }
    ensures { Filled index.entry.sheet.words.all.now index.entry.sheet.names.now owners.old targets.old result owners.new targets.new }
{
    let sheet = index.sheet;
    let n = sheet.items();
    // of each slot, the last edge that was looked up and whose name starts at a place of the slot
    let mut known: [Option<u16>; 512] = [None; 512];
    let mut o = 0;
    for k in 0..sheet.listed() {
        let row = n + k;
        let j = slot(sheet.name_at(row));
        let last = known[j];
        match last {
            Some(e) if sheet.one_name(n + e as usize, row) => targets[k] = targets[e as usize],
            _ => {
                let Some(t) = index.look_up(sheet.name(row)) else {
                    return Err(Refusal::ItemNotFound(k as u32));
                };
                targets[k] = t as u8;
                known[j] = Some(k as u16);
            }
        }
        o = sheet.owner(o, k);
        owners[k] = o as u8;
    }
    Ok(())
}
