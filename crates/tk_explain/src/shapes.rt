//! The commands of a script: their words, and what their numbers name.

/// How the command of a word is spelled, if there is one.
pub(crate) fn shape_of(word: &str) -> Option<&'static str> {
    match word {
        "capacity" => Some("capacity COUNT, from 1 to 65536"),
        "retention" => Some("retention SPAN"),
        "times" => Some("times"),
        "waits" => Some("waits"),
        "publish" => Some("publish MOMENT"),
        "snapshot" => Some("snapshot MOMENT"),
        "par" => Some("par"),
        "join" => Some("join"),
        _ => item_shape(word),
    }
}

fn item_shape(word: &str) -> Option<&'static str> {
    match word {
        "task" => Some("task MOMENT KIND NAME, of kind spawn or blocking"),
        "start" => Some("start TASK MOMENT"),
        "end" => Some("end TASK MOMENT"),
        "polls" => Some(
            "polls TASK COUNT MOMENT RUN EVERY, from 1 to 1000000 polls, of moments below 2^64",
        ),
        "close" => Some("close TASK MOMENT"),
        "selfwake" => Some("selfwake TASK MOMENT"),
        "clone" => Some("clone TASK"),
        "again" => Some("again WAKER"),
        "wakeref" => Some("wakeref WAKER MOMENT"),
        "wake" => Some("wake WAKER MOMENT"),
        "release" => Some("release WAKER"),
        _ => resource_shape(word),
    }
}

fn resource_shape(word: &str) -> Option<&'static str> {
    match word {
        "resource" => Some("resource MOMENT KIND TYPE, and up to six ATTR=VALUE"),
        "radd" => Some("radd RESOURCE INDEX VALUE"),
        "rsub" => Some("rsub RESOURCE INDEX VALUE"),
        "rset" => Some("rset RESOURCE INDEX VALUE"),
        "rclose" => Some("rclose RESOURCE MOMENT"),
        "op" => Some("op MOMENT RESOURCE SOURCE, and up to six ATTR=VALUE"),
        "optask" => Some("optask OP TASK"),
        "opstart" => Some("opstart OP MOMENT"),
        "opend" => Some("opend OP MOMENT"),
        "opclose" => Some("opclose OP MOMENT"),
        "oadd" => Some("oadd OP INDEX VALUE"),
        "osub" => Some("osub OP INDEX VALUE"),
        "oset" => Some("oset OP INDEX VALUE"),
        "pollop" => Some("pollop RESOURCE OP TASK NAME READY, which is ready or pending"),
        _ => None,
    }
}

/// What has no item where a command of this word stops by `NoSuchItem`.
pub(crate) fn missing_by(word: &str) -> &'static str {
    match word {
        "start" | "end" | "polls" | "close" | "selfwake" | "clone" => {
            "no task of this number was made, or it is closed"
        }
        "again" | "wakeref" | "wake" | "release" => {
            "no waker of this number was drawn, or it is spent"
        }
        "radd" | "rsub" | "rset" | "op" => "no resource of this number was made",
        "rclose" => "no resource of this number was made, or it is closed",
        "opstart" | "opend" | "opclose" | "oadd" | "osub" | "oset" => {
            "no async operation of this number was made, or it is closed"
        }
        "optask" => "no task of this number was made, or the async operation wasn't, or is closed",
        "pollop" => "the resource, the async operation or the task was not made",
        _ => "no item of this number was made",
    }
}
