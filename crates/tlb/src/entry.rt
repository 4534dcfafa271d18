// TLB entries.
ghost use Rattle.std.specs.Prelude.{◌≡◌};
ghost use Rattle.tlb.specs.Entry.{entry_of, matched};

use crate::bits::{bit, bits};
use crate::page::Page;
use crate::search::Matching;
use crate::source::Source;

// One slot's entry; its page is of the slot's kind.
#[derive(Clone, Copy, Debug, PartialEq, Eq)]
pub struct Entry<P> {
    // a flag: an entry that was ended keeps its space and page, which a look shows
    pub live: bool,
    // the space that it was loaded in
    pub space: u32,
    pub page: P,
}

impl<P: Page> Entry<P> {
    // The entry that is loaded from these words.
    pub fn made(source: Source) -> Entry<P>
        ensures { result ≡ entry_of P.Page.shape.made source.epn source.twc source.rpn }
    {
        Entry {
            live: bit(source.epn, 22),
            space: bits(source.epn, 28, 31),
            page: P::made(source),
        }
    }

    // The entry as if filled from zeros, as every slot has it at first.
    pub fn zero() -> Entry<P>
        ensures { result ≡ entry_of P.Page.shape.made 0 0 0 }
    {
        Entry::made(Source {
            epn: 0,
            twc: 0,
            rpn: 0,
        })
    }
}

impl<P: Page> Matching for Entry<P> {
    ghost answers = { λ e a s. matched e.live e.space (P.Page.shape.body e.page) a s };

    fn matches(&self, address: u32, space: u32) -> bool {
        let page = self.page.common();
        self.live && page.contains(address) && (page.shared || self.space == space)
    }
}
