// Chains of the legs at each station, so that a round looks only at the legs of stations whose
// label changed.
ghost use Rattle.std.specs.Prelude.{◌≡◌, ℕ, suc, ◌<◌, ◌≤◌, ◌↔◌, length, IsTrue};
ghost use Rattle.std.specs.Bool.{OnFalse, OnTrue};
ghost use Rattle.plans.specs.Plans.{stations as count_of};
ghost use Rattle.search.specs.Chains.{Chained, SameChains, Threaded, link, put_back, put_forth, put_next};

use network::Network;
use plans::Direction;
use records::Leg;
use steps::joined_leg;

/// Where chains go on: of a station, the last leg that starts there and the last that ends there;
/// of a leg, the one before it with the same start and the one before it with the same end.
#[derive(Clone, Copy, PartialEq, Eq, Default, Debug)]
pub struct Links {
    pub forth: Option<u16>,
    pub back: Option<u16>,
}

impl Links {
    // The leg that steps of one direction lead on to.
    #[inline(always)]
    pub(crate) fn by(self, direction: Direction) -> Option<u16>
        ensures { result ≡ link direction self }
    {
        match direction {
            Direction::Forth => self.forth,
            Direction::Back => self.back,
        }
    }
}

/// Chains in two lent slices: the links of each station, and those of each leg.
#[derive(Drop)]
pub struct Chains<'a> {
    pub heads: &'a mut [Links],
    pub nexts: &'a mut [Links],
}

impl Chains<'_> {
    // Puts a leg between stations at the head of its two chains.
    fn put(&mut self, number: usize, leg: Leg)
        requires small { number < 3000 }
        requires next { number < length self.old.nexts.now }
        requires start { leg.start < length self.old.heads.now }
        requires end { leg.end < length self.old.heads.now }
        ensures next { self.new.nexts.now
            ≡ put_next number leg self.old.heads.now self.old.nexts.now }
        ensures heads { self.new.heads.now
            ≡ put_back number leg (put_forth number leg self.old.heads.now) }
        ensures stay { SameChains self.old self.new }
    {
        let start = usize::from(leg.start);
        let end = usize::from(leg.end);
        // the cast loses nothing, by what is required, and there is no `From` of this kind
        let link = Some(number as u16);
        self.nexts[number] = Links {
            forth: self.heads[start].forth,
            back: self.heads[end].back,
        };
        self.heads[start].forth = link;
        self.heads[end].back = link;
    }

    // Puts a leg into the chains, if both its ends are stations.
    fn link_leg<N: Network>(&mut self, net: &N, number: usize)
        requires small { number < 3000 }
        requires next { number < length self.old.nexts.now }
        requires heads { count_of (N.Network.meaning net.now) ≤ length self.old.heads.now }
        ensures chained { Chained (N.Network.meaning net.now) number self.old.heads.now self.old.nexts.now
            → Chained (N.Network.meaning net.now) (suc number)
            self.new.heads.now self.new.nexts.now }
        ensures stay { SameChains self.old self.new }
    {
        let Some(leg) = joined_leg(net, number) else {
            return;
        };
        self.put(number, leg);
    }

    // Builds the chains of all legs, and says whether both slices were long enough for it: where
    // one is too short, nothing is altered.
    pub(crate) fn link<N: Network>(&mut self, net: &N) -> bool
        ensures enough { IsTrue result
            ↔ (count_of (N.Network.meaning net.now) ≤ length self.old.heads.now)
            × (length (N.Network.meaning net.now).legs ≤ length self.old.nexts.now) }
        ensures threaded { OnTrue result
            (Threaded (N.Network.meaning net.now) self.new.heads.now self.new.nexts.now) }
        ensures unaltered { OnFalse result (self.new ≡ self.old) }
        ensures stay { SameChains self.old self.new }
    {
        if self.heads.len() < net.stations() || self.nexts.len() < net.legs() {
            return false;
        }
        self.heads.fill(Links::default());
        // a range, since a network is asked by number: there is no slice to go through
        for number in 0..net.legs() {
            self.link_leg(net, number);
        }
        true
    }
}
