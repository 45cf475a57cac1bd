//! The station of a report.
ghost use Rattle.std.specs.Prelude.{◌≡◌};
ghost use Rattle.bufr_report_keys.specs.FirstValues.{moment_of, station_of};

use crate::first_values::FirstValues;
use bufr_entries::Station;

/// Makes the station of the first values, and takes its name out: a WMO station, else a WIGOS
/// identifier, else a mobile name.
pub(crate) fn station_of(values: &mut FirstValues) -> Option<Station>
    ensures is { result ≡ station_of values.old }
    ensures moment { moment_of values.new ≡ moment_of values.old }
{
    if let (Some(block), Some(number)) = (values.block.usable(), values.station.usable()) {
        return Some(Station::wmo(block, number));
    }
    let series = values.series.usable();
    let issuer = values.issuer.usable();
    let issue = values.issue.usable();
    let local = values.local.take().flatten();
    if let (Some(series), Some(issuer), Some(issue), Some(local)) = (series, issuer, issue, local) {
        return Some(Station::wigos(series, issuer, issue, local));
    }
    Some(Station::mobile(values.mobile.take().flatten()?))
}
