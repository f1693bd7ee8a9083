// A route's state, and what each event makes of it.
ghost use Rattle.std.specs.Prelude.{◌≡◌};
ghost use Rattle.states.specs.Routes.{is_unset, next_state};

#[derive(Clone, Copy, PartialEq)]
pub enum RouteState {
    Unset,
    Set,
    Active,
}

// What happens to a route.
#[derive(Clone, Copy, PartialEq)]
pub enum Event {
    // its request is granted
    Request,
    // its activation is granted
    Activation,
    // a train passes its signal
    Passing,
}

impl RouteState {
    // The state after the event; none where the event does not fit the state.
    pub fn next(self, event: Event) -> Option<RouteState>
        ensures { result ≡ next_state self event }
    {
        match (self, event) {
            (RouteState::Unset, Event::Request) => Some(RouteState::Set),
            (RouteState::Set, Event::Activation) => Some(RouteState::Active),
            (RouteState::Active, Event::Passing) => Some(RouteState::Unset),
            _ => None,
        }
    }

    // Whether the route is neither set nor active.
    pub fn is_unset(self) -> bool
        ensures { result ≡ is_unset self }
    {
        self == RouteState::Unset
    }
}
