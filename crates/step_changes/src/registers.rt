//! The registers of a video processor, as a part that can change.

ghost use Rattle.std.specs.Prelude.{◌≡◌};

use vdp_ports::Vdp;

/// The eight registers of a video processor.
pub fn video_registers(vdp: &Vdp) -> [u8; 8]
    ensures { result ≡ vdp.now.registers }
{
    vdp.holds_bounds();
    [
        vdp.register(0),
        vdp.register(1),
        vdp.register(2),
        vdp.register(3),
        vdp.register(4),
        vdp.register(5),
        vdp.register(6),
        vdp.register(7),
    ]
}
