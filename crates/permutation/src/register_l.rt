// The register L as a number below 1024 with bit i at weight 2 to the i (QUARK 3.2; document 01, "Steps, permutation and inverse").
// Single steps of a u32: `words::strides` takes groups of steps of a u64, by other formulas.
ghost use Rattle.std.specs.Prelude.{◌≡◌, ◌<◌};
ghost use Rattle.quark.specs.Step.{step_L, steps_L};
ghost use Rattle.quark.specs.Inverse.{undo_step_L};
ghost use Rattle.quark.specs.Word.{word_bits};
ghost use Rattle.permutation.specs.Steps.{value_of_L};

// L.
#[derive(Clone, Copy)]
pub struct RegisterL {
    pub value: u32,
    ghost small: { value < 1024 },
}

impl RegisterL {
    // L after a step.
    pub fn next(self) -> RegisterL
        ensures { word_bits 10 result.value ≡ step_L (word_bits 10 self.value) }
    {
        let l = self.value;
        RegisterL {
            value: (l ^ l / 8) % 2 * 512 + l / 2,
        }
    }

    // L before a step.
    pub fn previous(self) -> RegisterL
        ensures { word_bits 10 result.value ≡ undo_step_L (word_bits 10 self.value) }
    {
        let l = self.value;
        RegisterL {
            value: l % 512 * 2 + (l / 512 ^ l / 4) % 2,
        }
    }

    // L after some steps.
    pub fn after(self, count: u32) -> RegisterL
        ensures { word_bits 10 result.value ≡ steps_L count (word_bits 10 self.value) }
    {
        let mut now = self;
        for _ in 0..count {
            now = now.next();
        }
        now
    }
}

// L with its weights in the other order: bit i goes from weight 2 to the i to weight 2 to the (9 - i), or back.
pub fn mirrored(l: u32) -> u32
    requires { l < 1024 }
    ensures { result ≡ value_of_L (word_bits 10 l) }
{
    l.reverse_bits() >> 22
}
