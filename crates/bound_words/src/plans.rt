//! What the words ask for: a plan, and the settings of a run that it gives.
//!
//! A plan has each number under its name. Its settings have them as a run takes them, each in its range: clauses and
//! definitions see the fields as they are, and the ranges are the invariant of a model and no part of its value, so that
//! a definition takes settings from any plan.
ghost use Rattle.std.specs.Prelude.{◌≡◌};
ghost use Rattle.bound_words.specs.Plans.{IsPlanInRange, bound_settings, bounds_with, settings_of};
ghost use Rattle.bound_words.specs.Ranges.{AreBoundSettingsInRange, AreDrawSettingsInRange, AreReplaySettingsInRange};

use crate::capacities::CapacityList;
use crate::policies::PolicyList;
use bound_terms::Mode;
use cache_model::{CERT_VERSION, Terms};
use cache_rules::Objective;
use capacity_curve::CurveTerms;
use policy_model::PolicyName;
use relaxation::DenominatorChoice;
use std::marker::Model;
use trace_any::Format;

/// What the words ask for.
#[derive(Debug, PartialEq, Drop)]
pub enum Plan<'a> {
    /// Bounds on the best score from request `warmup` on, at a capacity in bytes, and their certificate; if written bytes
    /// are counted, also those of its schedule.
    Bounds {
        format: Format,
        capacity: u64,
        objective: Objective,
        mode: Mode,
        denominator: DenominatorChoice,
        warmup: u32,
        version: u8,
        writes: bool,
    },
    /// Whether a certificate is valid for a trace of this form.
    Check {
        format: Format,
    },
    /// The hits of a policy on a trace of this form, at a capacity in bytes, from request `warmup` on; if written bytes are
    /// counted, also those. Or a flag for each request, whether it is a hit.
    Replay {
        format: Format,
        capacity: u64,
        policy: PolicyName,
        warmup: u32,
        writes: bool,
        flags: bool,
    },
    /// LRU's hits at every number of slots on a trace of this form.
    Curve {
        format: Format,
    },
    /// LRU's hits on a trace of this form, and bounds over the denominator, from request `warmup` on, at each of the
    /// capacities.
    CapacityCurve {
        format: Format,
        capacities: CapacityList<'a>,
        objective: Objective,
        denominator: u64,
        warmup: u32,
    },
    /// Bounds on the best scores on a trace of this form from request `warmup` on, at each of the capacities, also of caches
    /// that let an object in up to `delay` requests after it was asked for; if there are policies, also their hits.
    Sweep {
        format: Format,
        capacities: CapacityList<'a>,
        policies: Option<PolicyList<'a>>,
        warmup: u32,
        delay: u32,
    },
    /// Whether hits that are claimed on a trace of this form are possible at a capacity in bytes, counted from request
    /// `warmup` on; if written bytes are counted, also the least that the hits must write.
    Judge {
        format: Format,
        capacity: u64,
        warmup: u32,
        writes: bool,
    },
    /// Bounds, their check and replays, at a capacity in bytes, on a trace that is drawn from a seed.
    Demo {
        seed: u64,
        requests: u32,
        objects: u32,
        capacity: u64,
        objective: Objective,
        mode: Mode,
        denominator: DenominatorChoice,
    },
    /// A certificate in the second version of its text.
    Upgrade,
    /// A certificate for a trace of this form with prices that are settled in blocks of this number of steps.
    Refine {
        format: Format,
        width: u32,
    },
}

/// Which bounds are asked for: their terms, the mode, the denominator, the version of the certificate's text, and whether
/// the bytes that its schedule writes are counted.
#[derive(Clone, Copy)]
pub struct BoundSettings {
    pub terms: Terms,
    pub mode: Mode,
    pub denominator: DenominatorChoice,
    pub version: u8,
    pub writes: bool,
}

/// Which replay is asked for: the policy, its capacity in bytes, the request from which its hits count, whether the bytes
/// that it writes are counted, and whether a flag for each request is printed in place of the report.
#[derive(Clone, Copy)]
pub struct ReplaySettings {
    pub policy: PolicyName,
    pub capacity: u64,
    pub warmup: u32,
    pub writes: bool,
    pub flags: bool,
}

/// At which capacity in bytes hits are judged, the request from which they count, and whether the bytes that they must
/// write are counted.
#[derive(Clone, Copy)]
pub struct JudgeSettings {
    pub capacity: u64,
    pub warmup: u32,
    pub writes: bool,
}

/// What a sweep is of: the request from which hits count, and by how many requests an object may enter the cache late.
#[derive(Clone, Copy, Debug, PartialEq, Eq)]
pub struct SweepSettings {
    pub warmup: u32,
    pub delay: u32,
}

/// Which trace is drawn: the seed of its generator, how many requests it has, and how many objects they are drawn from.
#[derive(Clone, Copy)]
pub struct DrawSettings {
    pub seed: u64,
    pub requests: u32,
    pub objects: u32,
}

/// What a run goes by: a command, with the form of the trace that it reads and its settings.
#[derive(Drop)]
pub enum Settings<'a> {
    Bounds(Format, BoundSettings),
    /// Bounds with a time to live, in the unit of the trace's times.
    TtlBounds(Format, u64, BoundSettings),
    Check(Format),
    Replay(Format, ReplaySettings),
    Curve(Format),
    CapacityCurve(Format, CapacityList<'a>, CurveTerms),
    Sweep(Format, CapacityList<'a>, Option<PolicyList<'a>>, SweepSettings),
    Judge(Format, JudgeSettings),
    Demo(DrawSettings, BoundSettings),
    Upgrade,
    Refine(Format, u32),
}

impl Model for BoundSettings {
    ghost use Rattle.bound_words.specs.declared.plans.BoundSettings.TheInside.{Inside as Fields};
    ghost use Rattle.bound_words.specs.Ranges.{AreBoundSettingsInRange, AreDrawSettingsInRange, AreReplaySettingsInRange};

    ghost Value = { Fields };

    ghost view = { λ s. s };

    ghost inverse = { λ s. s };

    ghost invariant = { AreBoundSettingsInRange };
}

impl Model for ReplaySettings {
    ghost use Rattle.bound_words.specs.declared.plans.ReplaySettings.TheInside.{Inside as Fields};
    ghost use Rattle.bound_words.specs.Ranges.{AreReplaySettingsInRange};

    ghost Value = { Fields };

    ghost view = { λ s. s };

    ghost inverse = { λ s. s };

    ghost invariant = { AreReplaySettingsInRange };
}

impl Model for DrawSettings {
    ghost use Rattle.bound_words.specs.declared.plans.DrawSettings.TheInside.{Inside as Fields};
    ghost use Rattle.bound_words.specs.Ranges.{AreDrawSettingsInRange};

    ghost Value = { Fields };

    ghost view = { λ s. s };

    ghost inverse = { λ s. s };

    ghost invariant = { AreDrawSettingsInRange };
}

impl BoundSettings {
    // Those of these numbers, in the order of a plan.
    fn new(
        capacity: u64,
        objective: Objective,
        mode: Mode,
        denominator: DenominatorChoice,
        warmup: u32,
        version: u8,
        writes: bool,
    ) -> Self
        requires { AreBoundSettingsInRange (bound_settings capacity objective mode denominator warmup version writes) }
        ensures { result ≡ bound_settings capacity objective mode denominator warmup version writes }
    {
        let terms = Terms {
            objective,
            capacity,
            warmup,
        };
        BoundSettings {
            terms,
            mode,
            denominator,
            version,
            writes,
        }
    }
}

impl ReplaySettings {
    /// Those of a policy.
    pub fn new(policy: PolicyName, capacity: u64, warmup: u32, writes: bool, flags: bool) -> Self
        requires { AreReplaySettingsInRange (record { policy = policy; capacity = capacity; warmup = warmup; writes = writes; flags = flags }) }
        ensures { result ≡ record { policy = policy; capacity = capacity; warmup = warmup; writes = writes; flags = flags } }
    {
        ReplaySettings {
            policy,
            capacity,
            warmup,
            writes,
            flags,
        }
    }
}

impl DrawSettings {
    // Those of these numbers.
    fn new(seed: u64, requests: u32, objects: u32) -> Self
        requires { AreDrawSettingsInRange (record { seed = seed; requests = requests; objects = objects }) }
        ensures { result ≡ record { seed = seed; requests = requests; objects = objects } }
    {
        DrawSettings {
            seed,
            requests,
            objects,
        }
    }
}

// Those of bounds, with the time to live of the form if it has one.
fn bounds_with<'a>(format: Format, asked: BoundSettings) -> Settings<'a>
    ensures { result ≡ bounds_with format.fresh.ttl format asked }
{
    match format.fresh.ttl {
        Some(ttl) => Settings::TtlBounds(format, ttl, asked),
        None => Settings::Bounds(format, asked),
    }
}

/// The settings of a plan. In a demo every request counts, the certificate has the first version, and no written bytes are
/// counted.
pub fn settings_of(plan: Plan<'_>) -> Settings<'_>
    requires { IsPlanInRange plan }
    ensures { result ≡ settings_of plan.entry }
{
    match plan {
        Plan::Bounds {
            format,
            capacity,
            objective,
            mode,
            denominator,
            warmup,
            version,
            writes,
        } => bounds_with(
            format,
            BoundSettings::new(
                capacity,
                objective,
                mode,
                denominator,
                warmup,
                version,
                writes,
            ),
        ),
        Plan::Check { format } => Settings::Check(format),
        Plan::Replay {
            format,
            capacity,
            policy,
            warmup,
            writes,
            flags,
        } => Settings::Replay(
            format,
            ReplaySettings::new(policy, capacity, warmup, writes, flags),
        ),
        Plan::Curve { format } => Settings::Curve(format),
        Plan::CapacityCurve {
            format,
            capacities,
            objective,
            denominator,
            warmup,
        } => Settings::CapacityCurve(
            format,
            capacities,
            CurveTerms {
                objective,
                denominator,
                warmup,
            },
        ),
        Plan::Sweep {
            format,
            capacities,
            policies,
            warmup,
            delay,
        } => Settings::Sweep(
            format,
            capacities,
            policies,
            SweepSettings { warmup, delay },
        ),
        Plan::Judge {
            format,
            capacity,
            warmup,
            writes,
        } => Settings::Judge(
            format,
            JudgeSettings {
                capacity,
                warmup,
                writes,
            },
        ),
        Plan::Demo {
            seed,
            requests,
            objects,
            capacity,
            objective,
            mode,
            denominator,
        } => Settings::Demo(
            DrawSettings::new(seed, requests, objects),
            BoundSettings::new(
                capacity,
                objective,
                mode,
                denominator,
                0,
                CERT_VERSION,
                false,
            ),
        ),
        Plan::Upgrade => Settings::Upgrade,
        Plan::Refine { format, width } => Settings::Refine(format, width),
    }
}
