// Bytes looked at together.
ghost use Rattle.reach.specs.Internal.Bytes.{Most};

// The largest of some bytes; 0 of none. (A loop, of which the compiler takes many bytes at once.)
pub fn largest(bytes: &[u8]) -> u8
    ensures { Most bytes.now result }
{
    let mut most: u8 = 0;
    for &byte in bytes {
        most = most.max(byte);
    }
    most
}
