// What the detectors report: a kind, a confidence, and the window that shows it.
ghost use Rattle.std.specs.Prelude.{◌≡◌};
ghost use Rattle.rvcsi_core.specs.Event.{event_validity_of};

#[derive(Clone, Copy)]
pub enum CsiEventKind {
    PresenceStarted,
    PresenceEnded,
    MotionDetected,
    MotionSettled,
    BaselineChanged,
    SignalQualityDropped,
    AnomalyDetected,
    CalibrationRequired,
}

#[derive(Clone, Copy)]
pub struct CsiEvent {
    pub event_id: u64,
    pub kind: CsiEventKind,
    pub session_id: u64,
    pub source_id: u64,
    pub timestamp_ns: u64,
    pub confidence: f32,
    pub window_id: u64,
}

// Why an event is not valid: its confidence, which is not from 0 to 1.
#[derive(Clone, Copy, Debug, PartialEq)]
pub struct ConfidenceOutOfRange(pub f32);

// Valid exactly when the confidence is from 0 to 1.
pub fn validate(e: CsiEvent) -> Result<(), ConfidenceOutOfRange>
    ensures { result ≡ event_validity_of e }
{
    if !crate::score_ok(e.confidence) {
        return Err(ConfidenceOutOfRange(e.confidence));
    }
    Ok(())
}
