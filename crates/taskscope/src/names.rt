//! The names of options and arguments.

pub(crate) const PERCENT: &str = "self-wake-percent";

pub(crate) const LIMIT: &str = "never-yielded-ns";

pub(crate) const NEVER_YIELDED: &str = "never-yielded";

pub(crate) const LONG_POLL: &str = "long-poll";

pub(crate) const LONG_WAIT: &str = "long-wait";

pub(crate) const FINDINGS: &str = "findings";

pub(crate) const PLACE: &str = "place";

pub(crate) const TIMES: &str = "times";

pub(crate) const SERIES: &str = "series";

pub(crate) const SORT: &str = "sort";

pub(crate) const ROWS: &str = "rows";

pub(crate) const FILTER: &str = "filter";

pub(crate) const RESOURCES: &str = "resources";

pub(crate) const EVERY: &str = "every";

pub(crate) const FOLLOW: &str = "follow";

pub(crate) const KEYS: &str = "keys";

pub(crate) const PLAIN: &str = "plain";

pub(crate) const BY: &str = "by";

pub(crate) const TO: &str = "to";

pub(crate) const EXPLAIN: &str = "explain";

pub(crate) const FILE: &str = "FILE";

pub(crate) const TITLE: &str = "title";

pub(crate) const BEFORE: &str = "BEFORE";

pub(crate) const LATER: &str = "AFTER";

pub(crate) const MORE_THAN: &str = "more-than";

pub(crate) const AT_LEAST: &str = "at-least";

pub(crate) const UNTIL: &str = "until";

pub(crate) const SINCE: &str = "since";

pub(crate) const LAST: &str = "last";
