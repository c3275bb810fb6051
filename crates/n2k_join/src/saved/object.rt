//! The objects of a saved state, and the members that each has.
ghost use Rattle.std.specs.Prelude.{◌≡◌};
ghost use Rattle.std.specs.List.{list_any};
ghost use Rattle.std.specs.Str.{bytes_eq};
ghost use Rattle.n2k_join.specs.Resumed.{is_name, state_names};

/// The format of a saved state.
#[derive(Clone, Copy)]
pub(crate) enum StateFormat {
    /// Format 1, which has no member `window`.
    WithoutWindow,
    /// Format 2, which has a member `window`.
    WithWindow,
}

/// An object of a saved state.
#[derive(Clone, Copy)]
pub(crate) enum Object {
    /// The state itself, in its format.
    State(StateFormat),
    /// An open group.
    Group,
}

/// Whether a state without a window has a member of that name.
fn is_of_state(name: &str) -> bool
    ensures { result ≡ list_any (λ n. bytes_eq name.now n) state_names }
{
    name == "bad"
        || name == "broken"
        || name == "format"
        || name == "groups"
        || name == "lines"
        || name == "messages"
        || name == "table"
        || name == "unknown"
}

impl Object {
    /// Whether the object has a member of that name.
    pub(crate) fn has(self, name: &str) -> bool
        ensures { result ≡ is_name self name.now }
    {
        match self {
            Object::State(StateFormat::WithoutWindow) => is_of_state(name),
            Object::State(StateFormat::WithWindow) => is_of_state(name) || name == "window",
            Object::Group => {
                name == "dst"
                    || name == "first"
                    || name == "frames"
                    || name == "pgn"
                    || name == "seq"
                    || name == "src"
            }
        }
    }
}
