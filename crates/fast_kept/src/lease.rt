//! What borrows a template set, kept with a share of it.

ghost use Rattle.std.specs.Prelude.{◌≡◌, ℕ, Option, Some, None, IfOk};
ghost use Rattle.fast_kept.specs.declared.lent.Lent.{Lent as LentOf};
ghost use Rattle.fast_kept.specs.Returning.{ReturnsAtRooms};
ghost use Rattle.fast_kept.specs.Leasing.{IsLent, IsMade};
ghost use Rattle.fast_kept.specs.Lending.{value_coded, lease_owns, IsPlaced};

use crate::lent::{Lent, Wanted};
use crate::parts::Parts;
use crate::shared::SharedSet;
use fast_dictionary::SlotEntries;
use fast_tape::{TapeNode, TapeReader};
use fast_untape::TapeWriter;
use std::alloc::{AllocError, Global};
use std::marker::{Model, Send};

/// Room for what borrows a set, and the share of the set that is lent to it, each in a box. The lifetime of the loan is the
/// lease's own, which ends it where it is let go.
pub struct Lease {
    set: *mut SharedSet,
    room: *mut Option<Lent<'static>>,
    alloc: Global,
    ghost life: { ℕ },
    ghost name: { ℕ },
    pub ghost value: { Option LentOf } by { value_coded },
    ghost placed: { IsPlaced set },
}

impl Model for Lease {
    ghost also_owns = { λ h. lease_owns h.life h.name h.alloc h.set h.room h.value };
}

// It may go to another thread, since what it owns may.
unsafe impl Send for Lease {}

/// What is wanted of a set; none where memory is refused.
fn made<'a>(alloc: Global, set: &'a SharedSet, wanted: &Wanted) -> Option<Lent<'a>>
    ensures { IsMade set.now wanted.now result }
{
    let set = set.set();
    let Ok(entries) = SlotEntries::new(alloc, set) else {
        return None;
    };
    Some(match *wanted {
        Wanted::Reader(mode, most_bytes) => {
            Lent::Reader(TapeReader::new(alloc, set, mode, most_bytes, entries))
        }
        Wanted::Writer => Lent::Writer(TapeWriter::new(alloc, set, entries)),
    })
}

/// Puts what is wanted of a set into the room.
fn fill<'a>(
    room: Parts<Option<Lent<'a>>, Global>,
    set: &'a mut SharedSet,
    wanted: &Wanted,
) -> Parts<Option<Lent<'a>>, Global>
    ensures { IsMade set.old wanted.now result.value }
{
    let mut room = room.into_box();
    let alloc = *Box::allocator(&room);
    *room = made(alloc, set, wanted);
    Parts::of(room)
}

/// Does this with a room, and with two more for what comes out of it.
fn work_beside<'a, T, F: FnOnce(&mut Option<Lent<'_>>, &mut [TapeNode], &mut [u8]) -> T>(
    room: &mut Option<Lent<'a>>,
    nodes: &mut [TapeNode],
    bytes: &mut [u8],
    work: F,
) -> T
    requires { F.IsAlwaysCallable work }
    ensures { ReturnsAtRooms F.FnOnce work room.old nodes.old bytes.old result room.new nodes.new bytes.new }
{
    work(room, nodes, bytes)
}

/// Lets go of the room and of what is in it.
fn close<'a>(room: Parts<Option<Lent<'a>>, Global>) {
    drop(room.into_box());
}

impl Lease {
    /// Lends the share, and puts what is wanted of the set into the room.
    fn of(
        set: Parts<SharedSet, Global>,
        room: Parts<Option<Lent<'static>>, Global>,
        wanted: &Wanted,
    ) -> Lease
        requires { room.value ≡ None }
        ensures { IsMade set.value wanted.now result.value }
    {
        let Parts { ptr: at, alloc: _ } = set;
        let room = fill(room, unsafe { &mut *at }, wanted);
        let Parts { ptr: room, alloc } = room;
        Lease {
            set: at,
            room,
            alloc,
        }
    }

    /// Ends the loan: the share again.
    fn end(self) -> Parts<SharedSet, Global> {
        let Lease { set, room, alloc } = self;
        close(Parts { ptr: room, alloc });
        Parts { ptr: set, alloc }
    }

    /// Does this with the room, and with two more for what comes out of it.
    pub fn with<T, F: FnOnce(&mut Option<Lent<'_>>, &mut [TapeNode], &mut [u8]) -> T>(
        &mut self,
        nodes: &mut [TapeNode],
        bytes: &mut [u8],
        work: F,
    ) -> T
        requires { F.IsAlwaysCallable work }
        ensures { ReturnsAtRooms F.FnOnce work self.old.value nodes.old bytes.old result self.new.value nodes.new bytes.new }
    {
        let room = self.room;
        work_beside(unsafe { &mut *room }, nodes, bytes, work)
    }
}

impl Drop for Lease {
    fn drop(self) {
        drop(self.end().into_box());
    }
}

impl Lease {
    /// What is wanted of a set, over a share of it.
    ///
    /// # Errors
    ///
    /// Where memory is refused.
    pub fn new(alloc: Global, set: SharedSet, wanted: &Wanted) -> Result<Lease, AllocError>
        ensures { IfOk result (λ lease. IsLent set wanted.now lease.value) }
    {
        let set = Box::new(alloc, set)?;
        let room = Box::new(alloc, None)?;
        let mut lease = Lease::of(Parts::of(set), Parts::of(room), wanted);
        if lease.with(&mut [], &mut [], |room, _, _| room.is_some()) {
            Ok(lease)
        } else {
            Err(AllocError)
        }
    }
}
