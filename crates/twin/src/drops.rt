// Drops.
ghost use Rattle.std.specs.Prelude.{◌≡◌, map};
ghost use Rattle.tlb.specs.Control.{reserve, unreserved};
ghost use Rattle.twin.specs.Call.{drop_unit, drop_all_unit};
ghost use Rattle.twin.specs.Load.{ended, dropped, drop_half, drop_all_half};

use crate::unit::{Half, Mmu};
use tlb::control::unreserved;
use tlb::entry::Entry;
use tlb::page::Page;

// Ends an entry if its page contains an address.
fn end_holder<P: Page>(entry: &mut Entry<P>, address: u32)
    ensures { entry.new ≡ dropped P.Page.shape address entry.old }
{
    if entry.page.common().contains(address) {
        entry.live = false;
    }
}

// Ends every entry whose page contains an address.
fn end_holders<P: Page>(entries: &mut [Entry<P>], address: u32)
    ensures { entries.new ≡ map (dropped P.Page.shape address) entries.old }
{
    for entry in entries.iter_mut() {
        end_holder(entry, address);
    }
}

// Ends every entry.
fn end_each<P>(entries: &mut [Entry<P>])
    ensures { entries.new ≡ map ended entries.old }
{
    for entry in entries.iter_mut() {
        entry.live = false;
    }
}

impl<P: Page> Half<P> {
    fn drop_page(&mut self, address: u32)
        ensures { self.new ≡ drop_half P.Page.shape address self.old }
    {
        end_holders(&mut self.slots, address);
    }

    // How many slots a drop of all ends: under the reserve bit the last four are spared.
    fn unspared(&self) -> usize
        ensures { result ≡ unreserved (reserve self.now.registers.ctr) }
    {
        usize::from(unreserved(self.control().reserve()))
    }

    fn drop_all(&mut self)
        ensures { self.new ≡ drop_all_half self.old }
    {
        let end = self.unspared();
        end_each(&mut self.slots[..end]);
    }
}

impl Mmu {
    // Ends every entry of both kinds whose page contains an address, of any space, reserved or not.
    pub fn drop_page(&mut self, address: u32)
        ensures { self.new ≡ drop_unit address self.old }
    {
        self.instruction.drop_page(address);
        self.data.drop_page(address);
    }

    // Ends every entry of both kinds, but for slots 28 to 31 of a kind whose reserve bit is set.
    pub fn drop_all(&mut self)
        ensures { self.new ≡ drop_all_unit self.old }
    {
        self.instruction.drop_all();
        self.data.drop_all();
    }
}
