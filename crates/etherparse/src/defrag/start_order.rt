//! The order in which the entries of a table started.

ghost use Rattle.std.specs.Prelude.{◌≡◌, ◌+◌, ◌<◌, ◌≤◌, ◌≢◌, ◌++◌, ◌∷◌, ◌^◌, [], true, length, min, slice_get, vec_len};
ghost use Rattle.std.specs.Prelude.{IfSome, vec_capacity};
ghost use Rattle.etherparse.specs.StartOrder.{CanMoveTo, IsOrder, IsRing, MovesTo, PutsLast, TakesOut, link};
ghost use Rattle.etherparse.specs.StartOrder.{order_without, nodes, room_beside};

use std::alloc::Global;
use std::marker::Model;

/// The order in which the entries of a table started, each by its slot, the index that it has in
/// the table. Each call takes constant time.
///
/// It is a list that is linked both ways. Node 0 is before the oldest and after the newest, and
/// the node of a slot is one more than the slot.
#[derive(Debug, Drop)]
pub(crate) struct StartOrder {
    newer: Vec<usize>,
    older: Vec<usize>,
}

impl Model for StartOrder {
    ghost use Rattle.std.specs.Prelude.{min, vec_capacity, length};
    ghost use Rattle.etherparse.specs.StartOrder.{IsRing, StartedSlots, nodes, room_beside, slots_of};

    ghost Value = { StartedSlots };

    ghost view = { λ links. record {
      order = slots_of (nodes links.newer.items);
      room = room_beside (length links.newer.items)
          (min (vec_capacity links.newer) (vec_capacity links.older));
    } };

    ghost invariant = { λ links. IsRing links.newer.items links.older.items };
}

// Node 0, where there is none.
fn begin(newer: &mut Vec<usize>, older: &mut Vec<usize>)
    requires ring { IsRing newer.old.items older.old.items }
    requires room { 1 ≤ room_beside (vec_len newer.old) (min (vec_capacity newer.old) (vec_capacity older.old)) }
    ensures ring { IsRing newer.new.items older.new.items }
    ensures nodes { nodes newer.new.items ≡ nodes newer.old.items }
    ensures some { 1 ≤ vec_len newer.new }
    ensures fits { vec_len newer.new + 1 ≤ 2 ^ 32 }
    ensures newer_room { vec_len newer.new < vec_capacity newer.new }
    ensures older_room { vec_len older.new < vec_capacity older.new }
{
    if newer.is_empty() {
        newer.push_reserved(0);
        older.push_reserved(0);
    }
}

// Links a new node in before node 0.
fn put_last(newer: &mut Vec<usize>, older: &mut Vec<usize>)
    requires ring { IsRing newer.old.items older.old.items }
    requires some { 1 ≤ vec_len newer.old }
    requires newer_room { vec_len newer.old < vec_capacity newer.old }
    requires older_room { vec_len older.old < vec_capacity older.old }
    ensures put { PutsLast (vec_len newer.old) 0 (link newer.old.items) (link older.old.items)
        (link newer.new.items) (link older.new.items) }
    ensures len { vec_len newer.new ≡ vec_len newer.old + 1 }
    ensures older_len { vec_len older.new ≡ vec_len older.old + 1 }
{
    let node = newer.len();
    let newest = older[0];
    newer.push_reserved(0);
    older.push_reserved(newest);
    newer[newest] = node;
    older[0] = node;
}

// Takes a node out: those before and after it are linked to one another.
fn take_out(newer: &mut Vec<usize>, older: &mut Vec<usize>, node: usize)
    requires ring { IsRing newer.old.items older.old.items }
    requires some { 0 < node }
    requires within { node < vec_len newer.old }
    ensures out { TakesOut node (link newer.old.items) (link older.old.items)
        (link newer.new.items) (link older.new.items) }
    ensures len { vec_len newer.new ≡ vec_len newer.old }
    ensures older_len { vec_len older.new ≡ vec_len older.old }
    ensures capacity { vec_capacity newer.new ≡ vec_capacity newer.old }
    ensures older_capacity { vec_capacity older.new ≡ vec_capacity older.old }
{
    let (before, after) = (older[node], newer[node]);
    newer[before] = after;
    older[after] = before;
}

// Moves one node to another, to which none is linked.
fn move_to(newer: &mut Vec<usize>, older: &mut Vec<usize>, from: usize, to: usize)
    requires same { vec_len older.old ≡ vec_len newer.old }
    requires from { from < vec_len newer.old }
    requires to { to < vec_len newer.old }
    requires can_move { from ≢ to → CanMoveTo from to newer.old.items older.old.items }
    ensures moves { MovesTo from to newer.old.items older.old.items newer.new.items older.new.items }
    ensures len { vec_len newer.new ≡ vec_len newer.old }
    ensures older_len { vec_len older.new ≡ vec_len older.old }
    ensures capacity { vec_capacity newer.new ≡ vec_capacity newer.old }
    ensures older_capacity { vec_capacity older.new ≡ vec_capacity older.old }
{
    if from == to {
        return;
    }
    let (before, after) = (older[from], newer[from]);
    newer[to] = after;
    older[to] = before;
    newer[before] = to;
    older[after] = to;
}

impl StartOrder {
    /// No entry. It takes no memory.
    pub(crate) fn new(alloc: Global) -> StartOrder
        ensures { result.order ≡ [] }
    {
        StartOrder {
            newer: Vec::new(alloc),
            older: Vec::new(alloc),
        }
    }

    /// Makes room for one more entry, and returns whether there is room.
    pub(crate) fn reserve(&mut self) -> bool
        ensures made { result ≡ true → 1 ≤ self.new.room }
        ensures succeeds { 1 ≤ self.old.room → result ≡ true }
        ensures order { self.new.order ≡ self.old.order }
        ensures room { self.old.room ≤ self.new.room }
    {
        let count = if self.newer.is_empty() { 2 } else { 1 };
        if self.newer.len() >= 0x1_0000_0000 {
            return false;
        }
        self.newer.try_reserve(count).is_ok() && self.older.try_reserve(count).is_ok()
    }

    /// The entry whose slot comes after the last one is the newest.
    pub(crate) fn push_newest(&mut self)
        requires { 1 ≤ self.old.room }
        ensures order { self.new.order ≡ self.old.order ++ length self.old.order ∷ [] }
        ensures is_order { IsOrder self.new.order }
        ensures len { length self.new.order ≡ length self.old.order + 1 }
        ensures fits { length self.new.order < 2 ^ 32 }
    {
        begin(&mut self.newer, &mut self.older);
        put_last(&mut self.newer, &mut self.older);
    }

    /// Removes the entry of a slot. That of the last slot takes its slot.
    pub(crate) fn swap_remove(&mut self, slot: usize)
        requires { slot < length self.old.order }
        ensures order { self.new.order ≡ order_without slot self.old.order }
        ensures is_order { IsOrder self.new.order }
        ensures len { length self.new.order + 1 ≡ length self.old.order }
        ensures room { self.old.room ≤ self.new.room }
    {
        let last = self.newer.len() - 1;
        let node = slot + 1;
        take_out(&mut self.newer, &mut self.older, node);
        move_to(&mut self.newer, &mut self.older, last, node);
        self.newer.pop();
        self.older.pop();
    }

    /// The slot of the entry that started first.
    pub(crate) fn oldest(&self) -> Option<usize>
        ensures slot { result ≡ slice_get self.now.order 0 }
        ensures within { IfSome result (λ slot. slot < length self.now.order) }
    {
        if self.newer.len() <= 1 {
            return None;
        }
        Some(self.newer[0] - 1)
    }
}
