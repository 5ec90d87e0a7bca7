// What holds of all packets.
ghost use Rattle.packet.specs.Theorems.{PacketsStand};

// Names the theorem: what is written is read back, two accepted packets with equal contents are equal bytes, and to every
// string of bytes there is one answer at most. That there is one is what `read` and `read_poly` promise.
pub fn packets_stand()
    ensures { PacketsStand }
{}
