//! Names, looked up by their bytes: a signature of each name tells most names apart, and only where two agree are the bytes compared.
ghost use Rattle.std.specs.Prelude.{◌≡◌, ◌+◌, ◌≤◌, length};
ghost use Rattle.sheets.specs.Words.{items};
ghost use Rattle.sheets.specs.Checks.{found};
ghost use Rattle.sheets.specs.inner.Found.{before};
ghost use Rattle.sheets.specs.inner.Signatures.{signature_of, signatures_of, Signed};

use crate::bytes::byte_from;
use crate::shape::Sheet;
use answers::{Refusal, Verdict};

// The signature of a name.
pub(crate) fn signature(name: &[u8]) -> u8
    requires { length name.now ≤ 65536 }
    ensures { result ≡ signature_of name.now }
{
    let mut factor: u64 = 37;
    let mut step: u64 = 101;
    let mut sum: u64 = 0;
    for b in name {
        sum += u64::from(*b) * factor;
        factor = (factor + step) % 65536;
        step = (step + 58) % 65536;
    }
    (sum % 256) as u8
}

// A sheet with the signatures of its first items.
#[derive(Clone, Copy)]
pub(crate) struct Index<'a> {
    pub(crate) sheet: Sheet<'a>,
    pub(crate) signatures: &'a [u8],
    ghost few: { length signatures.now ≤ items sheet.words.all.now },
    ghost signed: { signatures.now ≡ signatures_of sheet.words.all.now sheet.names.now (length signatures.now) },
}

impl<'a> Index<'a> {
    // The first item of this name, among those whose signatures are given.
    fn find(self, name: &[u8], signature: u8) -> Option<usize>
        requires { signature ≡ signature_of name.now }
        ensures { result ≡ before (length self.entry.signatures.now) (found self.entry.sheet.words.all.now self.entry.sheet.names.now (length self.entry.signatures.now) name.now) }
    {
        // no `for`: each search goes on behind the place that the one before it found
        let mut from = 0;
        while let Some(i) = byte_from(self.signatures, from, signature) {
            if terms::same(self.sheet.name(i), name) {
                return Some(i);
            }
            from = i + 1;
        }
        None
    }

    // The same, where the signature of the name is not known.
    pub(crate) fn look_up(self, name: &[u8]) -> Option<usize>
        requires { length name.now ≤ 65536 }
        ensures { result ≡ before (length self.entry.signatures.now) (found self.entry.sheet.words.all.now self.entry.sheet.names.now (length self.entry.signatures.now) name.now) }
    {
        self.find(name, signature(name))
    }
}

// 28, by the first item whose name an earlier item has. The signatures of the items before it are written.
pub(crate) fn sign<'a>(sheet: Sheet<'a>, signatures: &mut [u8]) -> Verdict
    requires { items sheet.words.all.now ≤ length signatures.old }
    ensures { Signed sheet.entry.words.all.now sheet.entry.names.now signatures.old result signatures.new }
{
    for i in 0..sheet.items() {
        let name = sheet.name(i);
        let s = signature(name);
        let index = Index {
            sheet,
            signatures: &signatures[..i],
        };
        if index.find(name, s).is_some() {
            return Err(Refusal::RepeatedName(i as u32));
        }
        signatures[i] = s;
    }
    Ok(())
}
