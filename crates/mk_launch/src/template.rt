//! From a command's template to its words.
ghost use Rattle.std.specs.Prelude.{◌≡◌, ◌⊎◌, Ok, Err, IfOk, IfErr};
ghost use Rattle.mk_launch.specs.Words.{words_of};
ghost use Rattle.mk_launch.specs.declared.faults.LaunchFault.TheVariants as faults;

use crate::faults::LaunchFault;
use crate::marks::split_front;
use crate::reader::Reader;
use mk_base::{List, Text};
use std::alloc::Global;

/// The words of a command's template, for a child that connects to this port: `%(addr)s` is the address
/// `127.0.0.1:PORT`, as in mosaik's `cmd`, and `%%` is `%`.
///
/// Spaces split the text. `"` or `'` opens a part that ends at the next one of its kind and keeps its spaces;
/// without its marks it belongs to the word in which it stands, so that a word of empty parts alone is empty. A
/// backslash is an ordinary byte. Among several faults a wrong per cent sign goes first, the leftmost one (`BadPlace`),
/// then a part that doesn't end (`BadQuote`), then that there is no word (`Empty`).
pub fn words(alloc: Global, template: &Text, port: u16) -> Result<List<Text>, LaunchFault>
    ensures words { IfOk result (λ words. words_of template.now port ≡ Ok words) }
    ensures fault { IfErr result (λ fault. (fault ≡ faults.Mem)
        ⊎ (words_of template.now port ≡ Err fault)) }
{
    let text = template.as_str();
    let mut reader = Reader::new(alloc, port)?;
    let mut rest = text;
    while let Some((front, after)) = split_front(rest) {
        reader.read(front, (text.len() - rest.len()) as u64)?;
        rest = after;
    }
    reader.words()
}
