// Lights: codes as lights, which lights are fit, and palettes.
#![tactic(auto)]

pub mod fit; // fit.rt: which lights are fit, and which are at even steps
pub mod palette; // palette.rt: the lights, and guesses at the code of a light

ghost use Rattle.std.specs.Prelude.{◌≡◌};
ghost use Rattle.lights.specs.Codes.{codes};

// 256 lights, each its code.
pub fn code_lights() -> [u16; 256]
    ensures { result ≡ codes }
{
    let mut lights = [0u16; 256];
    for k in 0..256 {
        lights[k] = k as u16;
    }
    lights
}
