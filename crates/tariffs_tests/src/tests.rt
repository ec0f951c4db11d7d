// Prices at each limit from both sides, by hand calculation.
use crate::distance::Distance;
use faults::{Call, Cause, Fault, Layer};
use price_lists::Table;
use std::test::Fail;
use surcharges::{Charges, Surcharge};
use tariffs::{Plain, Question, Tariff};

fn moved(sender: usize, receiver: usize, bytes: usize) -> Question {
    Question {
        sender,
        receiver,
        bytes,
        transformed: false,
    }
}

fn transformed(sender: usize, receiver: usize, bytes: usize) -> Question {
    Question {
        transformed: true,
        ..moved(sender, receiver, bytes)
    }
}

fn asked(cause: Cause) -> Fault {
    Fault::new(Layer::Tariffs, Call::Ask, cause)
}

fn made(cause: Cause) -> Fault {
    Fault::new(Layer::Tariffs, Call::Make, cause)
}

#[test]
fn a_plain_tariff_is_for_one_to_sixteen_boards(rt: HostRuntime) -> Result<(), Fail> {
    assert_eq!(rt; Plain::new(1)?.board_count(), 1);
    assert_eq!(rt; Plain::new(16)?.board_count(), 16);
    assert_eq!(rt; Plain::new(0).err(), Some(made(Cause::Board { number: 0 })));
    assert_eq!(rt;
        Plain::new(17).err(),
        Some(made(Cause::Board { number: 17 }))
    );
    Ok(())
}

#[test]
fn a_plain_package_costs_its_bytes_but_not_at_home(rt: HostRuntime) -> Result<(), Fail> {
    let plain = Plain::new(3)?;
    assert_eq!(rt; plain.price(moved(0, 2, 16777216)), Ok(16777216));
    assert_eq!(rt; plain.price(transformed(2, 1, 7)), Ok(7));
    assert_eq!(rt; plain.price(moved(1, 1, 7)), Ok(0));
    Ok(())
}

#[test]
fn a_question_is_refused_by_its_sender_then_its_receiver_then_its_bytes(
    rt: HostRuntime,
) -> Result<(), Fail> {
    let plain = Plain::new(3)?;
    assert_eq!(rt;
        plain.price(moved(3, 4, 16777217)),
        Err(asked(Cause::Board { number: 3 }))
    );
    assert_eq!(rt;
        plain.price(moved(2, 4, 16777217)),
        Err(asked(Cause::Board { number: 4 }))
    );
    assert_eq!(rt;
        plain.price(moved(2, 0, 16777217)),
        Err(asked(Cause::Beyond { index: 0 }))
    );
    Ok(())
}

fn table_price(boards: usize, prices: &[u32], question: Question) -> Result<u64, Fault> {
    Table::try_new(boards, prices)?.price(question)
}

#[test]
fn a_table_adds_the_latency_to_the_price_of_the_bytes(rt: HostRuntime) {
    assert_eq!(rt; table_price(1, &[100, 3], moved(0, 0, 12)), Ok(136));
    assert_eq!(rt; table_price(1, &[100, 3], moved(0, 0, 0)), Ok(0));
    assert_eq!(rt;
        table_price(2, &[1, 2, 3, 4, 5, 6, 7, 8], moved(1, 0, 10)),
        Ok(73)
    );
    assert_eq!(rt;
        table_price(2, &[1, 2, 3, 4, 5, 6, 7, 8], moved(0, 1, 10)),
        Ok(62)
    );
    assert_eq!(rt;
        table_price(1, &[1000000000, 10000], moved(0, 0, 16777216)),
        Ok(168772160000)
    );
}

#[test]
fn a_table_for_sixteen_boards_has_512_prices(rt: HostRuntime) {
    let mut prices = [0; 512];
    prices[255] = 5;
    prices[511] = 2;
    assert_eq!(rt; table_price(16, &prices, moved(15, 15, 10)), Ok(25));
    assert_eq!(rt; table_price(16, &prices, moved(15, 14, 10)), Ok(0));
    assert_eq!(rt;
        Table::check(15, &prices),
        Err(made(Cause::Beyond { index: 450 }))
    );
}

#[test]
fn a_wrong_price_list_is_refused_at_its_first_wrong_index(rt: HostRuntime) {
    assert_eq!(rt; Table::check(1, &[]), Err(made(Cause::Beyond { index: 0 })));
    assert_eq!(rt;
        Table::check(1, &[1000000001, 10001]),
        Err(made(Cause::Beyond { index: 0 }))
    );
    assert_eq!(rt;
        Table::check(1, &[0]),
        Err(made(Cause::Beyond { index: 1 }))
    );
    assert_eq!(rt;
        Table::check(1, &[0, 10001]),
        Err(made(Cause::Beyond { index: 1 }))
    );
    assert_eq!(rt;
        Table::check(1, &[0, 0, 0]),
        Err(made(Cause::Beyond { index: 2 }))
    );
    assert_eq!(rt; Table::check(0, &[]), Err(made(Cause::Board { number: 0 })));
    assert_eq!(rt;
        Table::check(17, &[1000000001]),
        Err(made(Cause::Board { number: 17 }))
    );
}

#[test]
fn a_surcharge_is_for_transformed_packages_by_their_receiver(rt: HostRuntime) -> Result<(), Fail> {
    let plain = Plain::new(3)?;
    let tariff = Surcharge::new(plain, Charges::new(&plain, &[0, 10, 1000])?);
    assert_eq!(rt; tariff.board_count(), 3);
    assert_eq!(rt; tariff.price(transformed(0, 1, 5)), Ok(55));
    assert_eq!(rt; tariff.price(moved(0, 1, 5)), Ok(5));
    assert_eq!(rt; tariff.price(transformed(1, 1, 5)), Ok(50));
    assert_eq!(rt; tariff.price(transformed(0, 2, 0)), Ok(0));
    assert_eq!(rt; tariff.price(transformed(0, 2, 16777216)), Ok(16793993216));
    assert_eq!(rt;
        tariff.price(transformed(0, 3, 5)),
        Err(asked(Cause::Board { number: 3 }))
    );
    Ok(())
}

#[test]
fn a_wrong_list_of_charges_is_refused_at_its_first_wrong_index(
    rt: HostRuntime,
) -> Result<(), Fail> {
    let plain = Plain::new(3)?;
    assert_eq!(rt;
        Charges::new(&plain, &[0, 0]).err(),
        Some(made(Cause::Beyond { index: 2 }))
    );
    assert_eq!(rt;
        Charges::new(&plain, &[0, 1001, 0]).err(),
        Some(made(Cause::Beyond { index: 1 }))
    );
    assert_eq!(rt;
        Charges::new(&plain, &[0, 0, 0, 0]).err(),
        Some(made(Cause::Beyond { index: 3 }))
    );
    Ok(())
}

#[test]
fn surcharges_lie_on_surcharges(rt: HostRuntime) -> Result<(), Fail> {
    let plain = Plain::new(1)?;
    let once = Surcharge::new(plain, Charges::new(&plain, &[10])?);
    let twice = Surcharge::new(once, Charges::new(&once, &[2])?);
    assert_eq!(rt; twice.price(transformed(0, 0, 5)), Ok(60));
    assert_eq!(rt; twice.price(moved(0, 0, 5)), Ok(0));
    Ok(())
}

fn charged_table_price(prices: &[u32], charge: u32, question: Question) -> Result<u64, Fault> {
    let table = Table::try_new(1, prices)?;
    let charges = Charges::new(&table, &[charge])?;
    Surcharge::new(table, charges).price(question)
}

#[test]
fn a_surcharge_lies_on_a_table(rt: HostRuntime) {
    assert_eq!(rt;
        charged_table_price(&[100, 3], 4, transformed(0, 0, 12)),
        Ok(184)
    );
}

// What the farthest and largest package costs at a distance of 15 and a charge for its receiver.
fn farthest(charge: u32) -> Result<u64, Fault> {
    let distance = Distance::new(16)?;
    let mut list = [0; 16];
    list[15] = charge;
    let charges = Charges::new(&distance, &list)?;
    Surcharge::new(distance, charges).price(transformed(0, 15, 16777216))
}

#[test]
fn a_surcharge_stops_at_the_highest_price(rt: HostRuntime) {
    assert_eq!(rt; farthest(0), Ok(1097229926400));
    assert_eq!(rt; farthest(135), Ok(1099494850560));
    assert_eq!(rt; farthest(136), Ok(1099511627776));
    assert_eq!(rt; farthest(137), Ok(1099511627776));
    assert_eq!(rt; farthest(1000), Ok(1099511627776));
}
