ghost use Rattle.std.specs.Prelude.{◌≡◌, ◌≤◌, ◌<◌, ◌&&◌, nat_le, IsOk, OnOk, OnErr};

use crate::Desk;
use std::alloc::AllocError;

// For how many asks a desk has room.
impl Desk {
    /// The greatest length that the queue has places for.
    pub fn room(&self) -> u32
        ensures { result ≡ self.now.room }
    {
        self.parts.queue.room()
    }

    /// Makes room for each node to owe word of as many asks as the queue has places for. If memory runs out, some room
    /// may have been made.
    pub fn reserve(&mut self) -> Result<(), AllocError>
        ensures desk { self.new.desk ≡ self.old.desk }
        ensures room { self.new.room ≡ self.old.room }
        ensures spare { OnOk result (self.new.room ≤ self.new.spare) }
        ensures kept { self.old.spare ≤ self.new.spare }
        ensures full { OnErr result (self.old.spare < self.old.room) }
    {
        let parts = self.parts.as_mut();
        let asks = parts.queue.room();
        parts.table.reserve(asks)
    }

    /// Makes room for so many asks in all, in the queue and as owed ones of each node. If memory runs out, some room
    /// may have been made.
    #[inline(always)]
    pub fn reserve_for(&mut self, asks: u32) -> Result<(), AllocError>
        ensures desk { self.new.desk ≡ self.old.desk }
        ensures room { OnOk result (asks ≤ self.new.room) }
        ensures spare { OnOk result (asks ≤ self.new.spare) }
        ensures kept { (self.old.room ≤ self.new.room) × (self.old.spare ≤ self.new.spare) }
        ensures full { asks ≤ self.old.room → asks ≤ self.old.spare → IsOk result }
    {
        if self.has_room(asks) {
            return Ok(());
        }
        self.make_room(asks)
    }

    // Whether there is room for so many asks.
    #[inline(always)]
    fn has_room(&self, asks: u32) -> bool
        ensures { result ≡ (nat_le asks self.now.room && nat_le asks self.now.spare) }
    {
        asks <= self.parts.queue.room() && asks <= self.parts.table.spare()
    }

    // Makes room for so many asks in all, where there is too little.
    #[inline(never)]
    fn make_room(&mut self, asks: u32) -> Result<(), AllocError>
        ensures desk { self.new.desk ≡ self.old.desk }
        ensures room { OnOk result (asks ≤ self.new.room) }
        ensures spare { OnOk result (asks ≤ self.new.spare) }
        ensures kept { (self.old.room ≤ self.new.room) × (self.old.spare ≤ self.new.spare) }
        ensures full { asks ≤ self.old.room → asks ≤ self.old.spare → IsOk result }
    {
        let parts = self.parts.as_mut();
        parts.queue.reserve(asks)?;
        parts.table.reserve(asks)?;
        Ok(())
    }
}
