// A plan in the making, with what it leaves over at the stations.
ghost use Rattle.std.specs.Prelude.{◌≡◌, pos, slice_index_or};
ghost use Rattle.planning.specs.Drafts.{SameDraft, left_after_change, left_after_move};
ghost use Rattle.planning_rules.specs.Answers.{the_plan};

use network::Network;
use slices::{first, put};

/// The amounts of the legs, and what is left over at each station: below zero where bikes are lacking. Both slices are lent,
/// and may be longer than there are legs and stations.
#[derive(Drop)]
pub struct Draft<'a> {
    pub amounts: &'a mut [u16],
    pub left: &'a mut [i64],
}

impl Draft<'_> {
    // The plan: the amounts of the legs.
    pub(crate) fn plan<N: Network>(&self, net: &N) -> &[u16]
        ensures { result.now ≡ the_plan (N.Network.meaning net.now) self.now.amounts.now }
    {
        first(self.amounts, net.legs())
    }

    // What is left over at a station; an entry that is missing counts as 0.
    pub(crate) fn left_at(&self, station: usize) -> i64
        ensures { result ≡ slice_index_or self.now.left.now station (pos 0) }
    {
        self.left.get(station).copied().unwrap_or(0)
    }

    // Adds to what is left over at a station, up to the limits of the number; at a number beyond the slice nothing changes.
    fn change(&mut self, station: usize, bikes: i64)
        ensures changed { self.new.left.now ≡ left_after_change self.old.left.now station bikes }
        ensures amounts { self.new.amounts.now ≡ self.old.amounts.now }
        ensures stay { SameDraft self.old self.new }
    {
        let left = self.left_at(station);
        put(self.left, station, left.saturating_add(bikes));
    }

    // Counts bikes that went from one station to another.
    pub(crate) fn hand_over(&mut self, from: usize, into: usize, bikes: u16)
        ensures handed { self.new.left.now ≡ left_after_move from into bikes self.old.left.now }
        ensures amounts { self.new.amounts.now ≡ self.old.amounts.now }
        ensures stay { SameDraft self.old self.new }
    {
        self.change(from, -i64::from(bikes));
        self.change(into, i64::from(bikes));
    }
}
