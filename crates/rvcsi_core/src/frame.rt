// One observation of the channel. Its amplitudes, phases and I/Q pairs are lent beside it, as `Lists`; it says their counts itself (5).
ghost use Rattle.std.specs.Prelude.{◌≡◌};
ghost use Rattle.rvcsi_core.specs.Frame.{exposable};

// `exposable` is a number, as a flag of any byte is answered.
#[derive(Clone, Copy)]
pub struct CsiFrame {
    pub session_id: u64,
    pub source_id: u64,
    pub timestamp_ns: u64,
    pub exposable: u8,
    pub subcarrier_count: usize,
    pub pair_count: usize,
    pub quality_score: f32,
}

// The lists lent with a frame: an amplitude and a phase for each subcarrier, and the I and Q of each pair behind one another.
#[derive(Clone, Copy)]
pub struct Lists<'a> {
    pub amplitudes: &'a [f32],
    pub phases: &'a [f32],
    pub pairs: &'a [f32],
}

// May the frame be looked at? Exactly when its flag is 1.
pub fn is_exposable(frame: CsiFrame) -> bool
    ensures { result ≡ exposable frame }
{
    frame.exposable == 1
}
