//! How a plan is made, and what the value and its slot tell.
ghost use Rattle.std.specs.Prelude.{◌≡◌, ◌<◌, ◌+◌, ◌++◌, [], ◌∷◌, Some, None, MatchOption, IfSome};
ghost use Rattle.std.specs.Prelude.{vec_len, true, false};
ghost use Rattle.hub_core.specs.declared.state.HubState.TheVariants.{All};
ghost use Rattle.hub_core.specs.declared.desk.DeskSlot.TheVariants.{Home};
ghost use Rattle.hub_core.specs.Halts.{halt_by};
ghost use Rattle.hub_core.specs.TallySteps.{has_desk};

use crate::deed::{Deed, Plan};
use crate::desk::{Desk, DeskSlot};
use crate::state::HubState;
use crate::vectors::{append, empty};
use std::alloc::Global;

impl Plan {
    /// A plan of no deeds, where there is memory.
    pub fn new(alloc: Global) -> Option<Plan>
        ensures { IfSome result
            (λ p. (p.deeds.items ≡ []) × (p.leaves ≡ None) × (p.keeps ≡ None)) }
    {
        let Ok(deeds) = Vec::with_capacity(alloc, 5) else {
            return None;
        };
        Some(Plan {
            deeds,
            leaves: None,
            keeps: None,
            forks: 0,
        })
    }

    /// No deeds.
    pub fn clear(&mut self)
        ensures { (self.new.deeds.items ≡ []) × (vec_len self.new.deeds ≡ 0)
            × (self.new.leaves ≡ None) × (self.new.keeps ≡ None) }
    {
        self.deeds.clear();
        self.leaves = None;
        self.keeps = None;
    }

    /// One deed more.
    pub fn add(&mut self, deed: Deed)
        requires { vec_len self.old.deeds < 5 }
        ensures deeds { self.new.deeds.items ≡ self.old.deeds.items ++ deed ∷ [] }
        ensures len { vec_len self.new.deeds ≡ vec_len self.old.deeds + 1 }
        ensures same { (self.new.leaves ≡ self.old.leaves) × (self.new.keeps ≡ self.old.keeps)
            × (self.new.forks ≡ self.old.forks) }
    {
        append(&mut self.deeds, deed);
    }
}

impl<R, A, E> Desk<R, A, E> {
    /// Whether a halt was entered, and whether Twice was entered first.
    pub fn halted(&self) -> Option<bool>
        ensures { MatchOption result (self.now.state ≡ All)
            (λ twice. self.now.state ≡ halt_by twice) }
    {
        match self.state {
            HubState::All => None,
            HubState::Twice => Some(true),
            HubState::NoMemory => Some(false),
        }
    }
}

impl<R, A, E> DeskSlot<R, A, E> {
    /// The value, where it is at home.
    pub fn into_home(self) -> Box<Desk<R, A, E>>
        requires { has_desk self ≡ true }
        ensures { self ≡ Home result }
    {
        match self {
            DeskSlot::Home(desk) => desk,
            DeskSlot::Away | DeskSlot::Told(..) => unreachable!(),
        }
    }

    /// Lets a slot go whose value is away.
    pub fn spend(self)
        requires { has_desk self ≡ false }
    {
        match self {
            DeskSlot::Home(desk) => empty(Some(desk)),
            DeskSlot::Away | DeskSlot::Told(..) => {},
        }
    }
}
