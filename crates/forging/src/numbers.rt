// A detector as scripts and answers number it.
use detectors::motion::{MotionConfig, MotionState};
use detectors::presence::{PresenceConfig, PresenceState};
use detectors::quality::{QualityConfig, QualityState};
use drift::{BaselineDriftConfig, DriftState};
use slots::{Detector, DetectorConfig, DetectorKind};

// Four words of the settings, in the order of their fields, and the state. What a kind does not have is 0.
#[derive(Clone, Copy)]
pub struct Numbers {
    pub words: [u32; 4],
    // 1 where it is on; of a drift detector the length of its baseline and one, 0 where there is none
    pub switch: u64,
    pub streak: u32,
    // whether calibration was asked for
    pub calibration: bool,
}

impl From<Detector> for Numbers {
    fn from(d: Detector) -> Self {
        match d {
            Detector::Presence(c, s) => Numbers {
                words: [
                    floats::to_bits(c.on_threshold),
                    floats::to_bits(c.off_threshold),
                    c.enter_windows,
                    c.exit_windows,
                ],
                switch: u64::from(s.present),
                streak: s.streak,
                calibration: false,
            },
            Detector::Motion(c, s) => Numbers {
                words: [
                    floats::to_bits(c.on_threshold),
                    floats::to_bits(c.off_threshold),
                    c.debounce_windows,
                    0,
                ],
                switch: u64::from(s.moving),
                streak: s.streak,
                calibration: false,
            },
            Detector::Quality(c, s) => Numbers {
                words: [
                    floats::to_bits(c.drop_threshold),
                    c.debounce_windows,
                    c.calib_windows,
                    0,
                ],
                switch: u64::from(s.dropped_emitted),
                streak: s.low_streak,
                calibration: s.calib_emitted,
            },
            Detector::Drift(c, s) => Numbers {
                words: [
                    floats::to_bits(c.drift_threshold),
                    c.drift_windows,
                    floats::to_bits(c.anomaly_threshold),
                    floats::to_bits(c.ewma_alpha),
                ],
                switch: from_baseline(s.baseline),
                streak: s.drift_streak,
                calibration: false,
            },
        }
    }
}

impl Numbers {
    // The detector that they number, of the kind of d.
    pub fn detector(self, d: Detector) -> Detector {
        let streak = self.streak;
        let on = self.switch != 0;
        match d {
            Detector::Presence(_, _) => Detector::Presence(
                presence(self.words),
                PresenceState {
                    present: on,
                    streak,
                },
            ),
            Detector::Motion(_, _) => {
                Detector::Motion(motion(self.words), MotionState { moving: on, streak })
            }
            Detector::Quality(_, _) => Detector::Quality(
                quality(self.words),
                QualityState {
                    low_streak: streak,
                    dropped_emitted: on,
                    calib_emitted: self.calibration,
                },
            ),
            Detector::Drift(_, _) => Detector::Drift(
                drift(self.words),
                DriftState {
                    baseline: baseline(self.switch),
                    drift_streak: streak,
                },
            ),
        }
    }
}

fn from_baseline(length: Option<usize>) -> u64 {
    length.map_or(0, |n| (n as u64).wrapping_add(1))
}

fn baseline(switch: u64) -> Option<usize> {
    switch.checked_sub(1).map(|n| n as usize)
}

// ---- settings

// By their words. Functions and no `From`, as the settings are another crate's types.
fn presence([on, off, enter_windows, exit_windows]: [u32; 4]) -> PresenceConfig {
    PresenceConfig {
        on_threshold: floats::from_bits(on),
        off_threshold: floats::from_bits(off),
        enter_windows,
        exit_windows,
    }
}

fn motion([on, off, debounce_windows, _]: [u32; 4]) -> MotionConfig {
    MotionConfig {
        on_threshold: floats::from_bits(on),
        off_threshold: floats::from_bits(off),
        debounce_windows,
    }
}

fn quality([drop, debounce_windows, calib_windows, _]: [u32; 4]) -> QualityConfig {
    QualityConfig {
        drop_threshold: floats::from_bits(drop),
        debounce_windows,
        calib_windows,
    }
}

fn drift([threshold, drift_windows, anomaly, alpha]: [u32; 4]) -> BaselineDriftConfig {
    BaselineDriftConfig {
        drift_threshold: floats::from_bits(threshold),
        drift_windows,
        anomaly_threshold: floats::from_bits(anomaly),
        ewma_alpha: floats::from_bits(alpha),
    }
}

// The kind of a number, if it is one's. No `TryFrom`, as both types are another crate's.
pub fn kind(number: u8) -> Option<DetectorKind> {
    match number {
        0 => Some(DetectorKind::Presence),
        1 => Some(DetectorKind::Motion),
        2 => Some(DetectorKind::Quality),
        3 => Some(DetectorKind::Drift),
        _ => None,
    }
}

// The settings of a detector of this kind.
pub fn settings(kind: DetectorKind, words: [u32; 4]) -> DetectorConfig {
    match kind {
        DetectorKind::Presence => DetectorConfig::Presence(presence(words)),
        DetectorKind::Motion => DetectorConfig::Motion(motion(words)),
        DetectorKind::Quality => DetectorConfig::Quality(quality(words)),
        DetectorKind::Drift => DetectorConfig::Drift(drift(words)),
    }
}
