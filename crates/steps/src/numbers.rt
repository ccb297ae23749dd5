// Sums and products modulo 2^32.
ghost use Rattle.std.specs.Prelude.{◌≡◌, ◌+◌, ◌^◌, ◌%◌, ◌<◌};
ghost use Rattle.machine.specs.Machine.{combined};

// y + k, where k has the bias.
pub(crate) fn add_constant(y: u32, k: u64) -> u32
    requires { k < 2 ^ 34 }
    ensures { result ≡ (y + k) % 2 ^ 32 }
{
    ((u64::from(y) + k) % 4294967296) as u32
}

// y op z.
pub(crate) fn combine(operation: usize, y: u32, z: u32) -> u32
    ensures { result ≡ combined operation y z }
{
    match operation {
        0 => ((u64::from(y) + u64::from(z)) % 4294967296) as u32,
        1 => ((u64::from(y) + 4294967296 - u64::from(z)) % 4294967296) as u32,
        _ => (u64::from(y) * u64::from(z) % 4294967296) as u32,
    }
}
