// What every layer shares: the fault that a refusal answers with, and the one append.

#![tactic(auto)]

mod fault;
mod run;

pub use fault::Fault;
pub use run::append;

#[cfg(test)]
mod tests {
    use super::*;

    #[derive(Clone, Copy, PartialEq, Debug)]
    struct Record {
        kind: u8,
        link: u32,
    }

    #[test]
    fn bytes_up_to_the_last(rt: HostRuntime) {
        let mut bytes = [1, 2, 3, 4u8];
        assert_eq!(rt; append(&mut bytes, 1, &[7, 8, 9]), Ok(4));
        assert_eq!(rt; bytes, [1, 7, 8, 9]);
        assert_eq!(rt; append(&mut bytes, 2, &[5, 5, 5]), Err(Fault::Overfull));
        assert_eq!(rt; append(&mut bytes, 5, &[]), Err(Fault::Overfull));
        assert_eq!(rt; append(&mut bytes, 4, &[]), Ok(4));
        assert_eq!(rt; bytes, [1, 7, 8, 9]);
    }

    #[test]
    fn entries_and_records(rt: HostRuntime) {
        let mut entries = [0u32; 2];
        assert_eq!(rt; append(&mut entries, 0, &[70_000]), Ok(1));
        assert_eq!(rt; entries, [70_000, 0]);
        let none = Record { kind: 0, link: 0 };
        let one = Record { kind: 9, link: 4 };
        let mut records = [none; 2];
        assert_eq!(rt; append(&mut records, 1, &[one]), Ok(2));
        assert_eq!(rt; records, [none, one]);
    }
}
