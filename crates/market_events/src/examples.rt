//! Examples of the definitions, worked out by hand: each is a clause of a function that does nothing.

ghost use Rattle.market_events.specs.ExamplesBase.{BaseExamples};
ghost use Rattle.market_events.specs.ExamplesCart.{CartExamples};
ghost use Rattle.market_events.specs.ExamplesCells.{CellExamples};
ghost use Rattle.market_events.specs.ExamplesCustomer.{CustomerExamples};
ghost use Rattle.market_events.specs.ExamplesFitCart.{CartFits, ProductFits};
ghost use Rattle.market_events.specs.ExamplesFitOrder.{OrderFits};
ghost use Rattle.market_events.specs.ExamplesFitPayment.{CustomerFits, PaymentFits, ShipmentFits};
ghost use Rattle.market_events.specs.ExamplesFitSeller.{SellerFits};
ghost use Rattle.market_events.specs.ExamplesFitStock.{StockFits};
ghost use Rattle.market_events.specs.ExamplesOrder.{OrderExamples};
ghost use Rattle.market_events.specs.ExamplesPayment.{PaymentExamples};
ghost use Rattle.market_events.specs.ExamplesProduct.{ProductExamples};
ghost use Rattle.market_events.specs.ExamplesSeller.{SellerExamples};
ghost use Rattle.market_events.specs.ExamplesShipment.{ShipmentExamples};
ghost use Rattle.market_events.specs.ExamplesStock.{StockExamples};

/// What the cart answers, case by case.
#[tactic(auto, using(crate::proofs::Computed::Cart::cart_examples))]
pub fn cart_examples()
    ensures { CartExamples }
{}

/// What the product service answers, case by case.
#[tactic(auto, using(crate::proofs::Computed::Products::product_examples))]
pub fn product_examples()
    ensures { ProductExamples }
{}

/// What stock answers, case by case.
#[tactic(auto, using(crate::proofs::Computed::Stock::stock_examples))]
pub fn stock_examples()
    ensures { StockExamples }
{}

/// What orders answer, case by case.
#[tactic(auto, using(crate::proofs::Computed::Orders::order_examples))]
pub fn order_examples()
    ensures { OrderExamples }
{}

/// What payments answer, case by case.
#[tactic(auto, using(crate::proofs::Computed::Payments::payment_examples))]
pub fn payment_examples()
    ensures { PaymentExamples }
{}

/// What shipments answer, case by case.
#[tactic(auto, using(crate::proofs::Computed::Shipments::shipment_examples))]
pub fn shipment_examples()
    ensures { ShipmentExamples }
{}

/// What customers answer, case by case.
#[tactic(auto, using(crate::proofs::Computed::Customers::customer_examples))]
pub fn customer_examples()
    ensures { CustomerExamples }
{}

/// What sellers answer, case by case.
#[tactic(auto, using(crate::proofs::Computed::Sellers::seller_examples))]
pub fn seller_examples()
    ensures { SellerExamples }
{}

/// Which inputs fit the cart, case by case.
#[tactic(auto, using(crate::proofs::Computed::FitCart::cart_fits))]
pub fn cart_fits()
    ensures { CartFits }
{}

/// Which inputs fit the product service, case by case.
#[tactic(auto, using(crate::proofs::Computed::FitCart::product_fits))]
pub fn product_fits()
    ensures { ProductFits }
{}

/// Which inputs fit stock, case by case.
#[tactic(auto, using(crate::proofs::Computed::FitStock::stock_fits))]
pub fn stock_fits()
    ensures { StockFits }
{}

/// Which inputs fit orders, case by case.
#[tactic(auto, using(crate::proofs::Computed::FitOrders::order_fits))]
pub fn order_fits()
    ensures { OrderFits }
{}

/// Which inputs fit payments, case by case.
#[tactic(auto, using(crate::proofs::Computed::FitPayments::payment_fits))]
pub fn payment_fits()
    ensures { PaymentFits }
{}

/// Which inputs fit shipments, case by case.
#[tactic(auto, using(crate::proofs::Computed::FitPayments::shipment_fits))]
pub fn shipment_fits()
    ensures { ShipmentFits }
{}

/// Which inputs fit customers, case by case.
#[tactic(auto, using(crate::proofs::Computed::FitPayments::customer_fits))]
pub fn customer_fits()
    ensures { CustomerFits }
{}

/// Which inputs fit sellers, case by case.
#[tactic(auto, using(crate::proofs::Computed::FitSellers::seller_fits))]
pub fn seller_fits()
    ensures { SellerFits }
{}

/// The base workload at each service is a run, and on each link what one service made is what the other took.
#[tactic(auto, using(crate::proofs::Computed::Base::base_examples))]
pub fn base_examples()
    ensures { BaseExamples }
{}

/// The cells of each service, after the base workload and others.
#[tactic(auto, using(crate::proofs::Computed::Cells::cell_examples))]
pub fn cell_examples()
    ensures { CellExamples }
{}
