//! Reads the words of a template, one by one.
ghost use Rattle.std.specs.Prelude.{◌≡◌, ◌⊎◌, [], None, Some, Ok, Err, IfOk, IfErr, OnOk, string_bytes, unwrap_or, option_map, encode_utf8};
ghost use Rattle.mk_launch.specs.Words.{address_at};
ghost use Rattle.mk_launch.specs.inner.Steps.{IsReadOf, after_quote, after_space, with_letters, without_word, words_read};
ghost use Rattle.mk_launch.specs.declared.faults.LaunchFault.TheVariants as faults;

use crate::faults::LaunchFault;
use crate::marks::Front;
use mk_base::{List, Mem, Text};
use std::alloc::Global;
use std::marker::Model;

// The quotation mark that opened a part, and the byte at which it stands.
#[derive(Clone, Copy)]
pub struct Part {
    quote: char,
    at: u64,
}

// What was read of a template: whole words, the word that goes on, if one does, and the part within quotation marks
// that goes on, if one does.
#[derive(Drop)]
pub struct Reader {
    alloc: Global,
    address: String,
    done: List<Text>,
    word: Option<String>,
    part: Option<Part>,
}

impl Model for Reader {
    ghost use Rattle.std.specs.Prelude.{string_bytes, option_map};
    ghost use Rattle.mk_launch.specs.inner.Reading.{Reading};
    ghost use Rattle.mk_launch.specs.declared.reader.Part.{Part};

    ghost Value = { Reading };

    ghost view = { λ a. record {
      address = string_bytes a.address;
      done = a.done;
      word = option_map string_bytes a.word;
      part = option_map (λ (p : Part). (p.quote, p.at)) a.part;
    } };
}

impl Reader {
    pub fn new(alloc: Global, port: u16) -> Result<Reader, Mem>
        ensures { IfOk result (λ r. r
            ≡ record { address = address_at port; done = []; word = None; part = None }) }
    {
        Ok(Reader {
            alloc,
            address: format!(in alloc; "127.0.0.1:{port}")?,
            done: List::new(alloc),
            word: None,
            part: None,
        })
    }

    // Takes what stands at byte `at`.
    pub fn read(&mut self, front: Front, at: u64) -> Result<(), LaunchFault>
        ensures ok { OnOk result (IsReadOf front self.old at self.new) }
        ensures err { IfErr result (λ fault. (fault ≡ faults.Mem)
            ⊎ ((front ≡ Front.Stray) × (fault ≡ faults.BadPlace at))) }
    {
        match front {
            Front::Space => Ok(self.space()?),
            Front::Quote(quote) => Ok(self.quote(quote, at)?),
            Front::Letter(c) => Ok(self.letter(c)?),
            Front::Address => Ok(self.address()?),
            Front::Percent => Ok(self.letter('%')?),
            Front::Stray => Err(LaunchFault::BadPlace(at)),
        }
    }

    // The words, now that the template has ended.
    pub fn words(mut self) -> Result<List<Text>, LaunchFault>
        ensures ok { IfOk result (λ words. words_read self ≡ Ok words) }
        ensures err { IfErr result (λ fault. (fault ≡ faults.Mem) ⊎ (words_read self ≡ Err fault)) }
    {
        if let Some(part) = self.part {
            return Err(LaunchFault::BadQuote(part.at));
        }
        self.end_word()?;
        if self.done.is_empty() {
            return Err(LaunchFault::Empty);
        }
        Ok(self.done)
    }

    // A space ends the word, or belongs to it within a part.
    fn space(&mut self) -> Result<(), Mem>
        ensures { OnOk result (self.new ≡ after_space self.old.part self.old) }
    {
        match self.part {
            Some(_) => self.letter(' '),
            None => self.end_word(),
        }
    }

    // A quotation mark opens a part, or ends the one that the same mark opened, or belongs to the part.
    fn quote(&mut self, quote: char, at: u64) -> Result<(), Mem>
        ensures { OnOk result (self.new ≡ after_quote quote at self.old.part self.old) }
    {
        match self.part {
            Some(part) if part.quote == quote => {
                self.part = None;
                Ok(())
            }
            Some(_) => self.letter(quote),
            None => {
                self.word = Some(self.begun());
                self.part = Some(Part { quote, at });
                Ok(())
            }
        }
    }

    // A character of the word.
    fn letter(&mut self, c: char) -> Result<(), Mem>
        ensures { OnOk result (self.new ≡ with_letters (encode_utf8 c) self.old) }
    {
        let mut word = self.begun();
        word.push(c)?;
        self.word = Some(word);
        Ok(())
    }

    // The address, as characters of the word.
    fn address(&mut self) -> Result<(), Mem>
        ensures { OnOk result (self.new ≡ with_letters self.old.address self.old) }
    {
        let mut word = self.begun();
        word.push_str(self.address.as_str())?;
        self.word = Some(word);
        Ok(())
    }

    // Takes the word that goes on, or an empty one.
    fn begun(&mut self) -> String
        ensures word { string_bytes result ≡ unwrap_or self.old.word [] }
        ensures rest { self.new ≡ record self.old { word = None } }
    {
        match self.word.take() {
            Some(word) => word,
            None => String::new(self.alloc),
        }
    }

    // Ends the word that goes on, if one does.
    fn end_word(&mut self) -> Result<(), Mem>
        ensures { OnOk result (self.new ≡ without_word self.old) }
    {
        match self.word.take() {
            Some(word) => self.done.push(Text::of(self.alloc, word.as_str())?),
            None => Ok(()),
        }
    }
}
