// What the rows of a station test and do. Things are named by their numbers.

// A position of a point.
#[derive(Clone, Copy, PartialEq)]
pub enum Position {
    Normal,
    Reverse,
}

// What a request locks and a release frees.
#[derive(Clone, Copy, PartialEq)]
pub enum Lock {
    Zone(usize),
    Subroute(usize),
}

// A test of a request row.
#[derive(Clone, Copy, PartialEq)]
pub enum RequestTest {
    // `R_x xs`: the route is neither set nor active
    Unset(usize),
    // `P_x cfn` or `P_x cfr`: the point lies so by its target, or may be driven there
    Movable(usize, Position),
    // `U_IR(x) f` or `U_a_b f`
    Free(Lock),
}

// What a granted request does.
#[derive(Clone, Copy, PartialEq)]
pub enum Action {
    // `R_x s`
    Set(usize),
    // `P_x cn` or `P_x cr`
    Drive(usize, Position),
    // `U_IR(x) l` or `U_a_b l`
    Take(Lock),
}

// A test of an activation row.
#[derive(Clone, Copy, PartialEq)]
pub enum ActivationTest {
    // `P_x n` or `P_x r`: settled so
    Lies(usize, Position),
    // `T_x c`
    Clear(usize),
}

// A test of a point's row, `U_IR(x) f` or `U_a_b f`.
#[derive(Clone, Copy, PartialEq)]
pub struct PointTest {
    pub free: Lock,
}

// A test of a release row.
#[derive(Clone, Copy, PartialEq)]
pub enum ReleaseTest {
    // `R_x xs`
    Unset(usize),
    // `U_a_b f`
    Free(usize),
    // `T_x c`
    Clear(usize),
}
