// The fields of each kind.
use fields::field_type::{ADDRESS, BITS_8, BITS_16, BITS_32, BITS_64, FieldType, STRING, YES_NO};
use fields::listed::Listed;

// The operator that each call names, A (0) or B (1): one bit, at the end.
const OPERATOR: FieldType = YES_NO;

pub const OPEN_BOTH: [FieldType; 11] = [
    BITS_64, // IKE SPI
    YES_NO, // MOBIKE agreed
    BITS_8, // family
    ADDRESS, // source
    ADDRESS, // destination
    BITS_16, // source port
    BITS_16, // destination port
    BITS_32, // IPsec SPI
    BITS_32, // peer
    YES_NO, // cloning agreed
    OPERATOR, // that opens
];

pub const ADD_IPSEC: [FieldType; 3] = [
    BITS_32, // SPI
    BITS_64, // owner
    OPERATOR, // that adds
];

pub const CLOSE_IKE: [FieldType; 2] = [
    BITS_64, // SPI of the IKE record
    OPERATOR, // that closes it
];

pub const CLOSE_IPSEC: [FieldType; 2] = [
    BITS_32, // SPI of the IPsec record
    OPERATOR, // that closes it
];

pub const REQUEST: [FieldType; 14] = [
    BITS_64, // SPI
    BITS_32, // ID
    BITS_8, // family
    ADDRESS, // source
    ADDRESS, // destination
    BITS_16, // source port
    BITS_16, // destination port
    STRING, // NAT value of the source
    STRING, // NAT value of the destination
    BITS_8, // first type
    STRING, // body
    STRING, // our check's cookie
    BITS_32, // our check's ID
    OPERATOR, // that it came to
];

pub const RULE: [FieldType; 5] = [
    BITS_8, // family
    ADDRESS, // source prefix
    ADDRESS, // destination prefix
    BITS_8, // its length
    BITS_8, // its length
];

// What follows the rules of a policy.
pub const AFTER_RULES: [FieldType; 1] = [
    OPERATOR, // whose policy it is
];

pub const POLICY: Listed = Listed {
    each: &RULE,
    size: 5,
    last: &AFTER_RULES,
};

pub const CHECK_RESPONSE: [FieldType; 5] = [
    BITS_64, // SPI of the IKE record that is checked
    BITS_32, // the response's ID
    BITS_8, // its first type
    STRING, // its body
    OPERATOR, // that checks
];

pub const CLONE: [FieldType; 5] = [
    BITS_64, // SPI of the IKE record that is cloned
    BITS_64, // SPI of its clone
    BITS_8, // the request's first type
    STRING, // its body
    OPERATOR, // of both
];

pub const DELETION_MARK: [FieldType; 2] = [
    BITS_64, // SPI of the IKE record that is being deleted
    OPERATOR, // that marks it
];
