//! The numbers of a step.
ghost use Rattle.std.specs.Prelude.{◌≡◌};
ghost use Rattle.drill_requests.specs.Draws.{drawn, next_state, number_of, third_state};

/// What is drawn for a step: what is done, with which object, and a value.
#[derive(Clone, Copy, PartialEq, Eq)]
pub struct Draw {
    pub kind: u64,
    pub object: u64,
    pub value: u64,
}

const MULTIPLIER: u128 = 6_364_136_223_846_793_005;

const INCREMENT: u128 = 1_442_695_040_888_963_407;

// So many states there are.
const STATES: u128 = 18_446_744_073_709_551_616;

// So many states have one number.
const STATES_OF_A_NUMBER: u64 = 8_589_934_592;

fn next_state(state: u64) -> u64
    ensures { result ≡ next_state state }
{
    ((state as u128 * MULTIPLIER + INCREMENT) % STATES) as u64
}

fn draw_number(state: &mut u64) -> u64
    ensures state { state.new ≡ next_state state.old }
    ensures number { result ≡ number_of state.old }
{
    *state = next_state(*state);
    *state / STATES_OF_A_NUMBER
}

/// Draws what is done, with which object, and a value, in this order.
pub fn draw_step(state: &mut u64) -> Draw
    ensures state { state.new ≡ third_state state.old }
    ensures drawn { result ≡ drawn state.old }
{
    let kind = draw_number(state) % 8;
    let object = draw_number(state) % 64;
    let value = draw_number(state) % 1_000_000;
    Draw {
        kind,
        object,
        value,
    }
}
