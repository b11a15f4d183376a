// The kinds of gates in both simulators.
use netlist::kind::Kind;
use tickwise::circuit::Function;

pub const FUNCTIONS: [Function; 8] = [
    Function::Buf,
    Function::Not,
    Function::And,
    Function::Or,
    Function::Xor,
    Function::Nand,
    Function::Nor,
    Function::Xnor,
];

pub fn kind_of(function: Function) -> Kind {
    match function {
        Function::Buf => Kind::Buf,
        Function::Not => Kind::Not,
        Function::And => Kind::And,
        Function::Or => Kind::Or,
        Function::Xor => Kind::Xor,
        Function::Nand => Kind::Nand,
        Function::Nor => Kind::Nor,
        Function::Xnor => Kind::Xnor,
    }
}
