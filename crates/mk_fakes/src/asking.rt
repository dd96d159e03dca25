//! A fleet that notes what it was asked to start.
ghost use Rattle.std.specs.Prelude.{◌≡◌, [], IfOk};
ghost use Rattle.mk_fakes.specs.Asking.{asks_of};

use mk_base::{LinkNo, List, Mem, Text};
use mk_outside::{Fleet, Listened, ReadLink, Start, Started, Waited, WriteLink};
use std::alloc::Global;

/// A port that listening gave, or a start that came to a link.
#[derive(Drop)]
pub enum Ask {
    Listened(u16),
    Begun(Start),
}

/// A fleet, and what it was asked to start so far. Where there is no memory for a note, the call answers `Mem`, and the
/// fleet isn't asked.
#[derive(Drop)]
pub struct AskedFleet<F> {
    alloc: Global,
    inner: F,
    asks: List<Ask>,
}

// A copy of a start.
fn copy_of(alloc: Global, start: &Start) -> Result<Start, Mem>
    ensures { IfOk result (λ copy. copy ≡ start.now) }
{
    match start {
        Start::Connect(port) => Ok(Start::Connect(*port)),
        Start::Command(words) => Ok(Start::Command(copy_words(alloc, words)?)),
    }
}

// A copy of a command's words.
fn copy_words(alloc: Global, words: &List<Text>) -> Result<List<Text>, Mem>
    ensures { IfOk result (λ copy. copy ≡ words.now) }
{
    let mut copy = List::new(alloc);
    for word in words.as_slice() {
        copy.push(word.copy()?)?;
    }
    Ok(copy)
}

impl<F: Fleet> AskedFleet<F> {
    /// A fleet that hasn't been asked anything, as far as this one notes it.
    pub fn new(alloc: Global, inner: F) -> AskedFleet<F>
        ensures inner { result.inner ≡ inner }
        ensures asks { result.asks ≡ [] }
    {
        AskedFleet {
            alloc,
            inner,
            asks: List::new(alloc),
        }
    }

    /// The ports that listening gave and the starts that came to a link, in their order.
    pub fn asks(&self) -> &[Ask]
        ensures { result.now ≡ self.now.asks }
    {
        self.asks.as_slice()
    }
}

impl<F: Fleet> Fleet for AskedFleet<F> {
    ghost use Rattle.std.specs.Prelude.{Some};

    ghost faults = { λ f. F.faults f.inner };

    ghost started = { λ f. F.started f.inner };

    ghost open_links = { λ f. F.open_links f.inner };

    ghost log = { λ f. F.log f.inner };

    ghost asked = { λ f. Some (asks_of f.asks) };

    fn listen(&mut self) -> Listened {
        let Ok(()) = self.asks.push(Ask::Listened(0)) else {
            return Listened::Mem;
        };
        let answer = self.inner.listen();
        match answer {
            Listened::At(port) => self.asks.set(self.asks.len() - 1, Ask::Listened(port)),
            Listened::Failed | Listened::Mem => {
                let _none = self.asks.pop();
            }
        }
        answer
    }

    fn start(&mut self, start: &Start) -> Started {
        let Ok(copy) = copy_of(self.alloc, start) else {
            return Started::Mem;
        };
        let Ok(()) = self.asks.push(Ask::Begun(copy)) else {
            return Started::Mem;
        };
        let answer = self.inner.start(start);
        match answer {
            Started::Link(_) => {}
            Started::Failed | Started::Mem => {
                let _none = self.asks.pop();
            }
        }
        answer
    }

    fn read(&mut self, link: LinkNo, into: &mut [u8]) -> ReadLink {
        self.inner.read(link, into)
    }

    fn write(&mut self, link: LinkNo, bytes: &[u8]) -> WriteLink {
        self.inner.write(link, bytes)
    }

    fn wait(&mut self, links: &[LinkNo], ready: &mut [bool]) -> Waited {
        self.inner.wait(links, ready)
    }

    fn close(&mut self, link: LinkNo) {
        self.inner.close(link)
    }
}
