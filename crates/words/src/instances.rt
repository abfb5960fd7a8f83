// The instances by name, which numbers are theirs, and which step widths are an instance's (document 01, "Steps, permutation and inverse").
// `is_instance` and `is_width` take any number: a wrong one is an input, which lines 1 and 4 answer.
ghost use Rattle.std.specs.Prelude.{◌≡◌};
ghost use Rattle.quark.specs.Instance.{instance_of, is_instance, is_width};
ghost use Rattle.words.specs.Instances.{named};

// An instance.
#[derive(Clone, Copy, PartialEq, Eq)]
pub enum Instance {
    U,
    D,
    S,
}

// 1 is U, 2 is D and 3 is S. Any other number gives S too, as in the definition; line 1 is tested first.
impl From<u32> for Instance {
    ghost from_gives = { λ number instance. named instance ≡ instance_of number };

    fn from(number: u32) -> Instance {
        match number {
            1 => Instance::U,
            2 => Instance::D,
            _ => Instance::S,
        }
    }
}

// Whether a number is an instance's: 1 is U, 2 is D, 3 is S.
pub fn is_instance(instance: u32) -> bool
    ensures { result ≡ is_instance instance }
{
    matches!(instance, 1..=3)
}

// Whether a step width is one of an instance's.
pub fn is_width(instance: u32, width: u32) -> bool
    ensures { result ≡ is_width instance width }
{
    match width {
        1 | 8 => true,
        16 => instance == 3,
        _ => false,
    }
}
