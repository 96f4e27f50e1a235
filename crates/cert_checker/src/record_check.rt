//! The check of a record.
ghost use Rattle.std.specs.Prelude.{◌≡◌, ◌≤◌, ◌^◌, ◌++◌};
ghost use Rattle.std.specs.Option.{option_map};
ghost use Rattle.cert_checker.specs.declared.invalid.InvalidKind.TheVariants.{Unused};
ghost use Rattle.cache_model.specs.Certificates.{IsHeaderInRange};
ghost use Rattle.cert_checker.specs.Rules.{first_some, interval_rules, load_rules, price_rules, record_rules, unless_fault, weight_in};

use crate::invalid::InvalidKind;
use crate::rules::{Figures, units, worth};
use cache_model::Object;
use cert_format::{Header, Record};

/// The most that the units may pay for all steps.
const MOST_PAID: u128 = 1 << 126;

// The weight of an object, which is 0 if it doesn't fit the capacity.
fn weight(header: &Header, object: &Object) -> u64
    requires { 1 ≤ header.now.unit }
    ensures { result ≡ weight_in header.now object.now }
{
    if object.size <= header.capacity {
        object.size / header.unit
    } else {
        0
    }
}

fn check_price(header: &Header, entry: &Record, now: &Figures) -> Result<(), InvalidKind>
    requires { 1 ≤ header.now.unit }
    ensures { result ≡ unless_fault (first_some (price_rules header.now entry.now now.now)) }
{
    match (units(header) as u128).checked_mul(now.prices) {
        Some(paid) if paid <= MOST_PAID => {}
        _ => return Err(InvalidKind::SumLimit),
    }
    if now.last && entry.price != 0 {
        return Err(InvalidKind::LastPrice { price: entry.price });
    }
    Ok(())
}

fn check_interval(header: &Header, object: &Object, now: &Figures) -> Result<(), InvalidKind>
    requires header { IsHeaderInRange header.now }
    requires size { (1 ≤ object.now.size) × (object.now.size ≤ 2 ^ 48) }
    ensures { result ≡ unless_fault (first_some (interval_rules header.now object.now now.now)) }
{
    if !now.counts || object.size > header.capacity {
        return Ok(());
    }
    if object.size % header.unit != 0 {
        return Err(InvalidKind::UnitNotDivisor {
            unit: header.unit,
            size: object.size,
        });
    }
    let weight = object.size / header.unit;
    if header.exact && worth(header, object) % weight as u128 != 0 {
        return Err(InvalidKind::NotDivisible { weight });
    }
    Ok(())
}

// A flow whose interval ends at a request that doesn't count is not used.
fn check_unused(now: &Figures) -> Result<(), InvalidKind>
    ensures { result ≡ unless_fault (option_map Unused now.now.unused) }
{
    match now.unused {
        Some(number) => Err(InvalidKind::Unused {
            number: number as u64,
        }),
        None => Ok(()),
    }
}

fn check_loads(
    header: &Header,
    object: &Object,
    entry: &Record,
    now: &Figures,
) -> Result<(), InvalidKind>
    requires { 1 ≤ header.now.unit }
    ensures { result ≡ unless_fault (first_some (load_rules header.now object.now entry.now now.now)) }
{
    if now.load > header.capacity {
        return Err(InvalidKind::Overfull {
            load: now.load as u128,
            capacity: header.capacity,
        });
    }
    let weight = weight(header, object);
    if entry.flow > weight {
        return Err(InvalidKind::FlowAboveWeight {
            flow: entry.flow as u128,
            weight,
        });
    }
    let units = units(header);
    if now.flows > units {
        return Err(InvalidKind::FlowOverfull {
            load: now.flows as u128,
            units,
        });
    }
    check_unused(now)
}

/// The first rule that a record of a request of the object fails, by the figures after it.
pub(crate) fn check_record(
    header: &Header,
    object: &Object,
    entry: &Record,
    now: &Figures,
) -> Result<(), InvalidKind>
    requires header { IsHeaderInRange header.now }
    requires size { (1 ≤ object.now.size) × (object.now.size ≤ 2 ^ 48) }
    ensures { result ≡ unless_fault (first_some (record_rules header.now object.now entry.now now.now)) }
{
    check_price(header, entry, now)?;
    check_interval(header, object, now)?;
    check_loads(header, object, entry, now)
}
