//! The lane of the tests of services.

use market_events::LANES;

// The caller whose requests the tests take.
const CALLER: u32 = 7;

/// The lane of caller 7, whose requests the tests of the services take.
pub const LANE: u8 = (CALLER % LANES) as u8;
