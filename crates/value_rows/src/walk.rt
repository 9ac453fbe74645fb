// The steps of one `note`, each one atomic operation.
ghost use Rattle.std.specs.Prelude.{◌≡◌, ◌≢◌, ◌+◌, ◌<◌, Some, None};
ghost use Rattle.count_core.specs.CoreStep.{claimed};
ghost use Rattle.value_rows.specs.Rows.{IsResting, walk, Walks, Asks};

use crate::rule::{Begins, Claims, Ends, GoesOn, Known, NoSlot};
use crate::table::ValueRows;
use atomic_table::Seat;
use count_core::{CoreView, steps_keep};
use std::marker::Brand;

// The key that has a place after a claim, where the claim found this word.
fn key_after(found: u64, key: u64) -> u64
    ensures key { result ≡ claimed found key }
    ensures full { key ≢ 0 → result ≢ 0 }
{
    if found == 0 { key } else { found }
}

impl ValueRows {
    // Looks at the first place of the site.
    fn begin<W: Known>(&self, seat: &mut Seat<NoSlot, CoreView>, site: u32, key: u64) -> u64
        requires table { seat.old.table_id ≡ self.now.id }
        requires rests { IsResting seat.old.me }
        requires site { site < self.now.sites }
        requires place { 0 < self.now.places }
        requires key { key ≢ 0 }
        requires known { (site ≡ W.site) × (key ≡ W.key) }
        ensures table { seat.new.table_id ≡ seat.old.table_id }
        ensures walks { Walks (walk W.site W.key 0 result) seat.old.me seat.new.me }
    {
        steps_keep();
        let at = self.key_word(site, 0);
        self.table.shared.load::<Begins<W>>(seat, at)
    }

    // Looks at the place `next`, where the walk found another key before it.
    fn go_on(
        &self,
        seat: &mut Seat<NoSlot, CoreView>,
        site: u32,
        key: u64,
        place: u32,
        winner: u64,
        next: u32,
    ) -> u64
        requires table { seat.old.table_id ≡ self.now.id }
        requires has { 0 < seat.old.me.0.shares }
        requires walks { seat.old.me.0.walking ≡ Some (walk site key place winner) }
        requires passed { (winner ≢ 0) × (winner ≢ key) }
        requires site { site < self.now.sites }
        requires place { (next ≡ place + 1) × (next < self.now.places) }
        ensures table { seat.new.table_id ≡ seat.old.table_id }
        ensures walks { Walks (walk site key (place + 1) result) seat.old.me seat.new.me }
    {
        steps_keep();
        let at = self.key_word(site, next);
        self.table.shared.load::<GoesOn>(seat, at)
    }

    // Claims the place, which was found empty, and tells the key that has it.
    fn claim(&self, seat: &mut Seat<NoSlot, CoreView>, site: u32, key: u64, place: u32) -> u64
        requires table { seat.old.table_id ≡ self.now.id }
        requires has { 0 < seat.old.me.0.shares }
        requires walks { seat.old.me.0.walking ≡ Some (walk site key place 0) }
        requires site { site < self.now.sites }
        requires place { place < self.now.places }
        requires key { key ≢ 0 }
        ensures table { seat.new.table_id ≡ seat.old.table_id }
        ensures walks { Walks (walk site key place result) seat.old.me seat.new.me }
        ensures full { result ≢ 0 }
    {
        steps_keep();
        let at = self.key_word(site, place);
        let found = self
            .table
            .shared
            .compare_exchange::<Claims>(seat, at, 0, key);
        key_after(found, key)
    }

    // The key that has the place, which is claimed if it was found empty.
    fn settle(
        &self,
        seat: &mut Seat<NoSlot, CoreView>,
        site: u32,
        key: u64,
        place: u32,
        found: u64,
    ) -> u64
        requires table { seat.old.table_id ≡ self.now.id }
        requires has { 0 < seat.old.me.0.shares }
        requires walks { seat.old.me.0.walking ≡ Some (walk site key place found) }
        requires site { site < self.now.sites }
        requires place { place < self.now.places }
        requires key { key ≢ 0 }
        ensures table { seat.new.table_id ≡ seat.old.table_id }
        ensures walks { Walks (walk site key place result) seat.old.me seat.new.me }
        ensures full { result ≢ 0 }
    {
        if found == 0 {
            self.claim(seat, site, key, place)
        } else {
            found
        }
    }

    // Counts the key at its place. The walk ends.
    fn count(&self, seat: &mut Seat<NoSlot, CoreView>, site: u32, key: u64, place: u32)
        requires table { seat.old.table_id ≡ self.now.id }
        requires has { 0 < seat.old.me.0.shares }
        requires walks { seat.old.me.0.walking ≡ Some (walk site key place key) }
        requires site { site < self.now.sites }
        requires place { place < self.now.places }
        ensures table { seat.new.table_id ≡ seat.old.table_id }
        ensures asks { Asks (walk site key place key) seat.old.me seat.new.me }
    {
        steps_keep();
        let at = self.count_word(site, place);
        self.table.shared.fetch_add::<Ends>(seat, at, 1);
    }

    // Every place has another key. The walk ends.
    fn drop_key(
        &self,
        seat: &mut Seat<NoSlot, CoreView>,
        site: u32,
        key: u64,
        place: u32,
        winner: u64,
    )
        requires table { seat.old.table_id ≡ self.now.id }
        requires has { 0 < seat.old.me.0.shares }
        requires walks { seat.old.me.0.walking ≡ Some (walk site key place winner) }
        requires passed { (winner ≢ 0) × (winner ≢ key) }
        requires site { site < self.now.sites }
        requires last { place + 1 ≡ self.now.places }
        ensures table { seat.new.table_id ≡ seat.old.table_id }
        ensures asks { Asks (walk site key place winner) seat.old.me seat.new.me }
    {
        steps_keep();
        let at = self.dropped_word(site);
        self.table.shared.fetch_add::<Ends>(seat, at, 1);
    }

    // One walk along the places, to the key's own or to the last.
    pub(crate) fn ask(&self, seat: &mut Seat<NoSlot, CoreView>, site: u32, key: u64)
        requires table { seat.old.table_id ≡ self.now.id }
        requires rests { IsResting seat.old.me }
        requires site { site < self.now.sites }
        requires key { key ≢ 0 }
        ensures table { seat.new.table_id ≡ seat.old.table_id }
        ensures asks { Asks (walk site key 0 0) seat.old.me seat.new.me }
    {
        let places = self.place_count();
        let found = self.begin::<Brand>(seat, site, key);
        let mut place = 0;
        let mut winner = self.settle(seat, site, key, place, found);
        while winner != key && place + 1 < places {
            let next = place + 1;
            let found = self.go_on(seat, site, key, place, winner, next);
            place = next;
            winner = self.settle(seat, site, key, place, found);
        }
        if winner == key {
            self.count(seat, site, key, place);
        } else {
            self.drop_key(seat, site, key, place, winner);
        }
    }
}
