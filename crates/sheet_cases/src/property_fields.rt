//! The bytes that are tried in the base property sheet.
use super::changes::Field;

pub const PROPERTY_FIELDS: [Field; 70] = [
    // letter, 0, clocks, largest constant, 0, edition, and two bytes that are 0
    Field(0, &[0, 68, 79, 81, 112]),
    Field(1, &[1, 255]),
    Field(2, &[0, 1, 3, 255]),
    Field(3, &[0, 1, 15, 16, 255]),
    Field(4, &[1, 255]),
    Field(5, &[0, 1, 3, 255]),
    Field(6, &[1, 255]),
    Field(7, &[1, 255]),
    // start and length of the lines, then of the conditions
    Field(8, &[1, 255]),
    Field(9, &[0, 15, 16, 24, 25, 36, 37, 255]),
    Field(10, &[1, 255]),
    Field(11, &[0, 4, 8, 12, 36, 39, 41, 42, 43, 44, 45, 56, 57, 255]),
    Field(12, &[1, 255]),
    Field(13, &[0, 59, 60, 68, 69, 255]),
    Field(14, &[1, 255]),
    Field(15, &[0, 4, 7, 9, 10, 11, 12, 13, 255]),
    // clock, second clock, relation and constant of each condition
    Field(64, &[1, 2, 255]),
    Field(65, &[0, 1, 2, 254]),
    Field(66, &[0, 4, 5, 255]),
    Field(67, &[0, 3, 127, 128, 255]),
    Field(68, &[0, 2, 255]),
    Field(69, &[1, 2, 254, 255]),
    Field(70, &[0, 4, 5, 255]),
    Field(71, &[0, 2, 3, 127, 128, 253, 255]),
    // kind, two operands and 0 of each line
    // true
    Field(20, &[1, 2, 3, 4, 5, 6, 7, 8, 9, 10, 255]),
    Field(21, &[1, 255]),
    Field(22, &[1, 255]),
    Field(23, &[1, 255]),
    // false
    Field(24, &[0, 9, 10, 255]),
    Field(25, &[1, 255]),
    Field(26, &[1, 255]),
    Field(27, &[1, 255]),
    // both
    Field(28, &[0, 3, 4, 9, 10, 255]),
    Field(29, &[9, 10, 255]),
    Field(30, &[0, 10, 255]),
    Field(31, &[1, 255]),
    // either
    Field(32, &[0, 2, 6, 8, 10, 255]),
    Field(33, &[0, 10, 255]),
    Field(34, &[9, 10, 255]),
    Field(35, &[1, 255]),
    // after some delay
    Field(36, &[1, 2, 5, 10, 255]),
    Field(37, &[0, 9, 10, 255]),
    Field(38, &[1, 255]),
    Field(39, &[1, 255]),
    // after every delay
    Field(40, &[3, 4, 7, 10, 255]),
    Field(41, &[0, 9, 10, 255]),
    Field(42, &[1, 255]),
    Field(43, &[1, 255]),
    // after some action
    Field(44, &[5, 7, 10, 255]),
    Field(45, &[0, 16, 17, 255]),
    Field(46, &[0, 9, 10, 255]),
    Field(47, &[1, 255]),
    // after every action
    Field(48, &[2, 6, 10, 255]),
    Field(49, &[0, 1, 17, 255]),
    Field(50, &[0, 9, 10, 255]),
    Field(51, &[1, 255]),
    // with a clock reset
    Field(52, &[7, 9, 10, 255]),
    Field(53, &[0, 2, 255]),
    Field(54, &[0, 9, 10, 255]),
    Field(55, &[1, 255]),
    // a condition
    Field(56, &[3, 8, 10, 255]),
    Field(57, &[1, 255]),
    Field(58, &[0, 2, 255]),
    Field(59, &[1, 255]),
    // bytes of no section: any value will do
    Field(16, &[255]),
    Field(19, &[255]),
    Field(60, &[255]),
    Field(63, &[255]),
    Field(72, &[255]),
    Field(75, &[255]),
];
