// What a register answers.
use types::entries::Root;

// A scheme, by which a call is typed.
#[derive(Clone, Copy, PartialEq, Eq, Debug)]
pub enum Scheme {
    Pair,
    Head,
    Tail,
    List,
}

// What a register tells of a name that it binds: the scheme or the type that the name is bound to.
#[derive(Clone, Copy)]
pub enum Told {
    Scheme(Scheme),
    Typed(Root),
}
