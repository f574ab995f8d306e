//! What others may know of a view.
ghost use Rattle.std.specs.Prelude.{◌≡◌};
ghost use Rattle.view_model.specs.Acts.{may_propose};
ghost use Rattle.view_model.specs.Answers.{at_place};
ghost use Rattle.view_core.specs.Places.{IsPlace};

use crate::dues::leader;
use crate::held::ViewState;
use ord_types::Place;

impl ViewState {
    /// The view that the member entered.
    pub fn view(&self) -> u64
        ensures { result ≡ self.now.view }
    {
        self.view
    }

    /// The greatest view that it left for, or 0.
    pub fn left(&self) -> u64
        ensures { result ≡ self.now.left }
    {
        self.left
    }

    /// Whether it would propose an offer that makes a block, where the view is at the place.
    pub fn may_propose(&self, place: &Place) -> bool
        requires { IsPlace place.now }
        ensures { result ≡ may_propose place.now self.now }
    {
        self.may_vote(place) && leader(place, self.view) == self.me && self.accepted.is_none()
    }

    /// Goes to the place: what belongs to another configuration, or to other numbers, is dropped. The
    /// calls that take a message or an offer, and `due`, do so first.
    pub fn go_to(&mut self, place: &Place)
        requires { IsPlace place.now }
        ensures { self.new ≡ at_place place.now self.old }
    {
        self.settle(place);
    }
}
