//! Texts that several tests have: the worked scheme, the messages of its transfers, and records.

/// The worked scheme: the log, JP, and NZ, whose account 1 has 100 units.
pub const SCHEME: &str =
    r#"{"records":1000,"registries":[{"accounts":[7,8],"allotted":[],"code":"JP","eligible":true,"kinds":["AAU","CER"]},{"accounts":[1,2],"allotted":[{"account":1,"units":["NZ:1:1-100:AAU"]}],"code":"NZ","eligible":true,"kinds":["AAU","RMU","ERU","CER","tCER","lCER"]}]}"#;

/// The proposal of NZ1, from NZ to the log.
pub const PROPOSED: &str =
    r#"{"account":1,"call":"AcceptProposal","from":"NZ","status":"Proposed","to":"ITL","to_account":7,"to_registry":"JP","transaction":"NZ1","units":["NZ:1:1-100:AAU"]}"#;

/// The same of 99 units.
pub const PROPOSED_99: &str =
    r#"{"account":1,"call":"AcceptProposal","from":"NZ","status":"Proposed","to":"ITL","to_account":7,"to_registry":"JP","transaction":"NZ1","units":["NZ:1:1-99:AAU"]}"#;

/// The proposal of NZ1 that the log has checked, from it to JP.
pub const CHECKED: &str =
    r#"{"account":1,"call":"AcceptProposal","from":"ITL","status":"Checked","to":"JP","to_account":7,"to_registry":"JP","transaction":"NZ1","units":["NZ:1:1-100:AAU"]}"#;

/// JP accepts NZ1, to the log.
pub const ACCEPTED: &str =
    r#"{"call":"AcceptNotification","codes":[],"from":"JP","status":"Accepted","to":"ITL","transaction":"NZ1"}"#;

/// The log passes the acceptance on to NZ.
pub const ACCEPTED_TO_NZ: &str =
    r#"{"call":"AcceptNotification","codes":[],"from":"ITL","status":"Accepted","to":"NZ","transaction":"NZ1"}"#;

/// NZ completes NZ1, to the log.
pub const COMPLETED: &str =
    r#"{"call":"AcceptNotification","codes":[],"from":"NZ","status":"Completed","to":"ITL","transaction":"NZ1"}"#;

/// The log passes the completion on to JP.
pub const COMPLETED_TO_JP: &str =
    r#"{"call":"AcceptNotification","codes":[],"from":"ITL","status":"Completed","to":"JP","transaction":"NZ1"}"#;

/// The log has cancelled NZ1, to NZ.
pub const CANCELLED_TO_NZ: &str =
    r#"{"call":"AcceptNotification","codes":[],"from":"ITL","status":"Cancelled","to":"NZ","transaction":"NZ1"}"#;

/// The same to JP.
pub const CANCELLED_TO_JP: &str =
    r#"{"call":"AcceptNotification","codes":[],"from":"ITL","status":"Cancelled","to":"JP","transaction":"NZ1"}"#;

/// JP rejects NZ1 for two causes, to the log.
pub const REJECTED: &str =
    r#"{"call":"AcceptNotification","codes":[301,303],"from":"JP","status":"Rejected","to":"ITL","transaction":"NZ1"}"#;

/// The log terminates NZ1 for a cause, to NZ.
pub const TERMINATED_TO_NZ: &str =
    r#"{"call":"AcceptNotification","codes":[207],"from":"ITL","status":"Terminated","to":"NZ","transaction":"NZ1"}"#;

/// NZ asks the log to cancel NZ1.
pub const REQUEST: &str =
    r#"{"call":"RequestCancellation","from":"NZ","to":"ITL","transaction":"NZ1"}"#;

/// The proposal of NZ2, from NZ to the log.
pub const SECOND_PROPOSED: &str =
    r#"{"account":1,"call":"AcceptProposal","from":"NZ","status":"Proposed","to":"ITL","to_account":7,"to_registry":"JP","transaction":"NZ2","units":["NZ:1:1-100:AAU"]}"#;

/// The proposal of NZ2 that the log has checked, from it to JP.
pub const SECOND_CHECKED: &str =
    r#"{"account":1,"call":"AcceptProposal","from":"ITL","status":"Checked","to":"JP","to_account":7,"to_registry":"JP","transaction":"NZ2","units":["NZ:1:1-100:AAU"]}"#;

/// JP accepts NZ2, to the log.
pub const SECOND_ACCEPTED: &str =
    r#"{"call":"AcceptNotification","codes":[],"from":"JP","status":"Accepted","to":"ITL","transaction":"NZ2"}"#;

/// The log passes the acceptance on to NZ.
pub const SECOND_ACCEPTED_TO_NZ: &str =
    r#"{"call":"AcceptNotification","codes":[],"from":"ITL","status":"Accepted","to":"NZ","transaction":"NZ2"}"#;

/// NZ completes NZ2, to the log.
pub const SECOND_COMPLETED: &str =
    r#"{"call":"AcceptNotification","codes":[],"from":"NZ","status":"Completed","to":"ITL","transaction":"NZ2"}"#;

/// The log passes the completion on to JP.
pub const SECOND_COMPLETED_TO_JP: &str =
    r#"{"call":"AcceptNotification","codes":[],"from":"ITL","status":"Completed","to":"JP","transaction":"NZ2"}"#;

/// The record of NZ that proposes NZ1.
pub const PROPOSE_RECORD: &str =
    r#"{"account":1,"input":"propose","to_account":7,"to_registry":"JP","units":["NZ:1:1-100:AAU"],"v":2}"#;

/// The same in format 1.
pub const PROPOSE_RECORD_1: &str =
    r#"{"account":1,"input":"propose","to_account":7,"to_registry":"JP","units":["NZ:1:1-100:AAU"]}"#;

/// The record of NZ for the acceptance of NZ1 by JP.
pub const ACCEPTED_RECORD: &str =
    r#"{"input":"received","message":{"call":"AcceptNotification","codes":[],"from":"ITL","status":"Accepted","to":"NZ","transaction":"NZ1"},"moment":1335830400,"v":2}"#;

/// The same in format 1.
pub const ACCEPTED_RECORD_1: &str =
    r#"{"input":"received","message":{"call":"AcceptNotification","codes":[],"from":"ITL","status":"Accepted","to":"NZ","transaction":"NZ1"},"moment":1335830400}"#;

/// The line that a peer writes after it took the message.
pub const RECEIVED: &[u8] = b"{\"code\":0,\"result\":\"received\"}\n";

/// The table of the worked transfer, at its end.
pub const TABLE: &str = "\
transaction NZ1 NZ Completed ITL Completed JP Completed
registry JP held 100 spendable 100
holds JP 7 NZ:1:1-100:AAU free
registry NZ held 0 spendable 0
owed 0
end
";
