// Which lights are fit, and which of them are at even steps.
ghost use Rattle.std.specs.Prelude.{◌≡◌, true, length};
ghost use Rattle.lights.specs.Lights.{light_of, rises_to};
ghost use Rattle.lights.specs.inner.Fit.{Rising, EvenSteps, StepsOf, Spaced};

// How fit lights are spaced: at even steps, or not known to be.
#[derive(Clone, Copy, Debug, PartialEq, Eq)]
pub enum Steps {
    Even,
    Uneven,
}

// How many lights stand where steps from the first put them. No turn leaves the loop, so that it takes several lights at once.
fn count_steps(lights: &[u16], first: u16, step: u16) -> u16
    requires { (length lights.now ≡ 256) × (first ≡ light_of lights.now 0) }
    ensures { result ≡ 256 → StepsOf (light_of lights.now) step }
{
    let mut due = first;
    let mut met: u16 = 0;
    for i in 0..256 {
        met += u16::from(lights[i] == due);
        due = due.wrapping_add(step);
    }
    met
}

// Whether lights, of which these are the first two, rise at even steps.
fn rises_evenly(lights: &[u16], first: u16, second: u16) -> bool
    requires { (length lights.now ≡ 256) × (first ≡ light_of lights.now 0) × (second ≡ light_of lights.now 1) }
    ensures { result ≡ true → Rising (light_of lights.now) × EvenSteps (light_of lights.now) }
{
    if second <= first {
        return false;
    }
    let step = second - first;
    if 65535 < (first as u64) + 255 * (step as u64) {
        return false;
    }
    count_steps(lights, first, step) == 256
}

// Whether lights rise strictly.
fn rises(lights: &[u16]) -> bool
    requires { length lights.now ≡ 256 }
    ensures { result ≡ rises_to (light_of lights.now) 255 }
{
    let mut fallen: u16 = 0;
    for i in 0..255 {
        fallen += u16::from(lights[i + 1] <= lights[i]);
    }
    fallen == 0
}

// How lights are spaced, or none where they are unfit. One pass tells lights at even steps, such as codes, and they rise.
pub fn steps_of(lights: &[u16]) -> Option<Steps>
    ensures { Spaced lights.now result }
{
    if lights.len() != 256 {
        return None;
    }
    if rises_evenly(lights, lights[0], lights[1]) {
        return Some(Steps::Even);
    }
    rises(lights).then_some(Steps::Uneven)
}
